// The evaluation program's whole job: a sheet is read from one stream to its end and evaluated, and its line is written to another.
//
// No contract can say what the system reads, writes and answers. These say what an answer means, how many bytes there is room for, and which line
// is laid out for the bytes that were counted; and where a stream's bytes are known, as those of one in memory, which of them were read and
// written.
#![tactic(auto)]

ghost use Rattle.std.specs.Prelude.{◌≡◌, ◌-◌, ◌≤◌, length, take, drop};
ghost use Rattle.text.specs.Text.{onto};
ghost use Rattle.line.specs.Line.{line_of_sheet};
ghost use Rattle.program.specs.Program.{interrupted_by, Retried, Within, Exactly, Ran};
ghost use Rattle.program.specs.Streams.{Took, TookAll, Gave, GaveWhole, TookSheet, GaveLine, Prints};

use std::io;
use std::io::{ErrorKind, Read, Write};

// Room for a sheet: one byte more than the longest, so that a longer input is refused for its size.
pub const SHEET_ROOM: usize = 32769;

pub const LINE_ROOM: usize = line::ROOM;

// The job done: the numbers of bytes that were read and written.
#[derive(Clone, Copy, Debug)]
pub struct Printed {
    pub read: usize,
    pub written: usize,
}

// Why it was not done.
#[derive(Clone, Copy, Debug)]
pub enum Failure {
    NotRead { error: io::Error },
    NotWritten { read: usize, error: io::Error },
}

// Whether a signal interrupted the call before it moved a byte, by its answer.
#[tactic(auto, unfolding(crate::specs::Program::interrupted_by, crate::specs::Program::is_eintr))]
fn interrupted(got: &io::Result<usize>) -> bool
    ensures { result ≡ interrupted_by got.now }
{
    match got {
        Ok(_) => false,
        Err(error) => error.kind() == ErrorKind::Interrupted,
    }
}

// Calls once, and again as long as a signal interrupts the call. The turns are counted, since a proved loop ends and nothing says that the
// signals do. The function to call is lent, so that after the last call it is known what became of what it borrows.
fn retry<F: FnMut() -> io::Result<usize>>(call: &mut F) -> io::Result<usize>
    requires { F.IsAlwaysCallable call.old }
    ensures { Retried F.step call.old result call.new }
{
    let mut got = call();
    for _ in 0..u32::MAX {
        if !interrupted(&got) {
            break;
        }
        got = call();
    }
    got
}

// Reads a piece, as far as one call fills it.
fn read_piece<R: Read>(input: &mut R, piece: &mut [u8]) -> io::Result<usize>
    ensures within { Within (length piece.old) result }
    ensures took { Took (R.remaining input.old) (R.remaining input.new) piece.new result }
{
    retry(&mut || input.read(piece))
}

// Reads a piece into the sheet from `at` on; the bytes before it stay.
fn read_on<R: Read>(input: &mut R, sheet: &mut [u8], at: usize) -> io::Result<usize>
    requires { at ≤ length sheet.old }
    ensures within { Within (length sheet.old - at) result }
    ensures kept { take at sheet.new ≡ take at sheet.old }
    ensures took { Took (R.remaining input.old) (R.remaining input.new) (drop at sheet.new) result }
{
    read_piece(input, &mut sheet[at..])
}

// Reads until the input ends or the sheet is full: a read of no bytes is the end, one that fails is a failure.
fn read_sheet<R: Read>(input: &mut R, sheet: &mut [u8]) -> io::Result<usize>
    ensures within { Within (length sheet.old) result }
    ensures took { TookAll (R.remaining input.old) (R.remaining input.new) sheet.new result }
{
    let mut at = 0;
    while at < sheet.len() {
        let n = read_on(input, sheet, at)?;
        if n == 0 {
            break;
        }
        at += n;
    }
    Ok(at)
}

// Writes a piece, as far as one call takes it.
fn write_piece<W: Write>(output: &mut W, piece: &[u8]) -> io::Result<usize>
    ensures within { Within (length piece.now) result }
    ensures gave { Gave (W.contents output.old) (W.contents output.new) piece.now result }
{
    retry(&mut || output.write(piece))
}

// Writes all the bytes, piece by piece; a write that fails or takes none is a failure.
fn write_whole<W: Write>(output: &mut W, bytes: &[u8]) -> io::Result<usize>
    ensures exactly { Exactly (length bytes.now) result }
    ensures gave { GaveWhole (W.contents output.old) (W.contents output.new) bytes.now result }
{
    let mut at = 0;
    while at < bytes.len() {
        let n = write_piece(output, &bytes[at..])?;
        if n == 0 {
            return Err(io::Error::from(ErrorKind::WriteZero));
        }
        at += n;
    }
    Ok(at)
}

// Evaluates a sheet, lays out its line and writes it.
pub fn print_line<W: Write>(
    sheet: &[u8],
    line: &mut [u8; LINE_ROOM],
    output: &mut W,
) -> io::Result<usize>
    ensures laid { line.new ≡ onto (line_of_sheet sheet.now) line.old }
    ensures exactly { Exactly (length (line_of_sheet sheet.now)) result }
    ensures gave { GaveWhole (W.contents output.old) (W.contents output.new) (line_of_sheet sheet.now) result }
{
    let n = line::sheet_line(sheet, line);
    let laid: &[u8] = line;
    write_whole(output, &laid[..n])
}

// Reads a sheet to the end of the input, evaluates it and prints its line.
#[tactic(auto, using(crate::proofs::Bytes::prints, crate::proofs::Bytes::prints_part))]
pub fn run<R: Read, W: Write>(
    input: &mut R,
    output: &mut W,
    sheet: &mut [u8; SHEET_ROOM],
    line: &mut [u8; LINE_ROOM],
) -> Result<Printed, Failure>
    ensures ran { Ran sheet.new line.old line.new result }
    ensures took { TookSheet (R.remaining input.old) (R.remaining input.new) sheet.new result }
    ensures gave { GaveLine (W.contents output.old) (W.contents output.new) sheet.new result }
    ensures prints { Prints (R.remaining input.old) (W.contents output.old) (W.contents output.new) result }
{
    let read = read_sheet(input, sheet).map_err(|error| Failure::NotRead { error })?;
    let bytes: &[u8] = sheet;
    let put = print_line(&bytes[..read], line, output);
    let written = put.map_err(|error| Failure::NotWritten { read, error })?;
    Ok(Printed { read, written })
}
