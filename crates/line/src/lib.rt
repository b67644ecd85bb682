// The line that the evaluation program prints for a sheet, laid out on a lent buffer.
#![tactic(auto)]

ghost use Rattle.std.specs.Prelude.{◌≡◌, ◌≤◌, length};
ghost use Rattle.result.specs.Result.{outcome_in, fields_of};
ghost use Rattle.text.specs.Text.{onto};
ghost use Rattle.line.specs.Line.{line_of, line_of_sheet};

use refusal::{Numbered, Refusal};

// Room for a line: the word, 13 numbers of at most 20 digits, their spaces and the line feed.
pub const ROOM: usize = 276;

// The 13 fields of the result record as they are printed, pass last.
#[tactic(auto, unfolding(result::specs::Result::fields_of, urban::specs::Urban::flag))]
fn fields_of(res: &[u8; 32]) -> [u64; 13]
    ensures { result ≡ fields_of (outcome_in res.now) }
{
    let o = result::read_back(res);
    [
        u64::from(o.rule),
        u64::from(o.i),
        u64::from(o.j),
        u64::from(o.k),
        u64::from(o.kp),
        u64::from(o.w.0),
        u64::from(o.c.0),
        u64::from(o.l_urban),
        u64::from(o.a_urban.0),
        u64::from(o.a_ref.0),
        u64::from(o.pmr),
        u64::from(o.a.0),
        u64::from(o.pass),
    ]
}

// The line for an answer and its result buffer, with its line feed, at the front of `out`; answers how many bytes it takes. The bytes behind
// it stay.
#[tactic(auto, unfolding(crate::specs::Line::line_of, crate::specs::Line::accepted_word, crate::specs::Line::refused_word))]
fn line(answer: Result<(), Refusal>, res: &[u8; 32], out: &mut [u8]) -> usize
    requires { 276 ≤ length out.old }
    ensures size { (result ≡ length (line_of answer res.now)) × (result ≤ 276) }
    ensures bytes { out.new ≡ onto (line_of answer res.now) out.old }
{
    match answer {
        Ok(()) => text::put_line(b"OK", &fields_of(res), out),
        Err(r) => text::put_line(b"REFUSED", &[u64::from(r.number()), r.place() as u64], out),
    }
}

// Evaluates a sheet and lays out its line.
#[tactic(auto, unfolding(crate::specs::Line::line_of_sheet))]
pub fn sheet_line(sheet: &[u8], out: &mut [u8]) -> usize
    requires { 276 ≤ length out.old }
    ensures size { (result ≡ length (line_of_sheet sheet.now)) × (result ≤ 276) }
    ensures bytes { out.new ≡ onto (line_of_sheet sheet.now) out.old }
{
    let mut result = [0u8; 32];
    let answer = evaluation::evaluate(sheet, &mut result);
    line(answer, &result, out)
}
