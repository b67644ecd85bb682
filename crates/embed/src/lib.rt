// The evaluation, the verdict on the levels of a motorcycle, production checks and the test mass of lorries, for programs in C and Rust. A slice is
// a pointer and a length, an array a pointer, and an answer is numbers.
#![tactic(auto)]

ghost use Rattle.std.specs.Prelude.{◌≡◌, length};
ghost use Rattle.units.specs.Bytes.{number};
ghost use Rattle.refusal.specs.Refusal.{answer_number, answer_place};
ghost use Rattle.evaluation.specs.Answer.{answer_of, buffer_of};
ghost use Rattle.evaluation.specs.Demand.{CloseTo, RisesFrom};
ghost use Rattle.text.specs.Text.{onto};
ghost use Rattle.motorcycle.specs.Verdict.{verdict_of, verdict_number, verdict_place};
ghost use Rattle.motorcycle.specs.Patterns.{levels_of};
ghost use Rattle.production.specs.Stages.{start_of};
ghost use Rattle.production.specs.Numbers.{check_numbers, restored_from};
ghost use Rattle.lorry.specs.TestMass.{two_axles_of, more_axles_of, loading_number, loading_place};
ghost use Rattle.lorry.specs.Numbers.{lorry_of};
ghost use Rattle.embed.specs.Printed.{printed_of};
ghost use Rattle.embed.specs.MeanAndPass.{mean_or, pass_or};
ghost use Rattle.embed.specs.CheckInNumbers.{offer_code, offer_place, numbers_after, status_code, status_or, wanted_or, OfferInNumbers, StatusInNumbers};
ghost use Rattle.embed.specs.FourMasses.{masses_or};

use lorry::{Masses, RearOverloaded, TwoAxles};
use production::Check;

// Evaluates a sheet. Answers 0 and puts the result record into the first 32 bytes of `res`, or answers the number of the refusal
// and leaves `res` as it was. The place of the refusal goes to `place`, 0 on success.
#[unsafe(no_mangle)]
pub extern "C" fn ruthimpo_evaluate(sheet: &[u8], res: &mut [u8], place: &mut usize) -> u32
    ensures code { result ≡ answer_number (answer_of sheet.now (length res.old)) }
    ensures place { place.new ≡ answer_place (answer_of sheet.now (length res.old)) }
    ensures buffer { res.new ≡ buffer_of sheet.now res.old }
    ensures close { result ≡ 0 → CloseTo sheet.now (number res.new 10 2) }
    ensures rising { result ≡ 0 → RisesFrom sheet.now (number res.new 10 2) }
{
    let answer = evaluation::evaluate(sheet, res);
    *place = refusal::answer_place(answer);
    refusal::answer_number(answer) as u32
}

// Puts the line of the evaluation program at the front of `out` and answers its length; the bytes behind it stay. If `out` has less than 276
// bytes, it stays as it was, and the answer is 0, which is the length of no line.
#[tactic(auto, unfolding(crate::specs::Printed::printed_of, text::specs::Text::onto))]
#[unsafe(no_mangle)]
pub extern "C" fn ruthimpo_line(sheet: &[u8], out: &mut [u8]) -> usize
    ensures size { result ≡ length (printed_of sheet.now (length out.old)) }
    ensures bytes { out.new ≡ onto (printed_of sheet.now (length out.old)) out.old }
{
    if out.len() < line::ROOM {
        return 0;
    }
    line::sheet_line(sheet, out)
}

// Judges the four levels of a motorcycle, given by their bit patterns, against a limit in whole dB(A). Answers 0 and puts the mean, in
// quarters of a dB(A), into `mean` and 1 into `pass` if it passes, else 0; or answers the number of the refusal and leaves both as they
// were. The place of the refusal goes to `place`, 0 if there is none.
#[unsafe(no_mangle)]
pub extern "C" fn ruthimpo_motorcycle(
    levels: &[u32; 4],
    limit: u16,
    mean: &mut u16,
    pass: &mut u8,
    place: &mut usize,
) -> u32
    ensures code { result ≡ verdict_number (verdict_of (levels_of levels.now) limit) }
    ensures place { place.new ≡ verdict_place (verdict_of (levels_of levels.now) limit) }
    ensures mean { mean.new ≡ mean_or (verdict_of (levels_of levels.now) limit) mean.old }
    ensures pass { pass.new ≡ pass_or (verdict_of (levels_of levels.now) limit) pass.old }
{
    let verdict = motorcycle::judge(motorcycle::levels_of(levels), limit);
    if let Ok(judged) = verdict {
        *mean = judged.mean.0;
        *pass = u8::from(judged.pass);
    }
    *place = refusal::answer_place(verdict);
    refusal::answer_number(verdict) as u32
}

// The answer to a number that no stage has. The papers give no number for this; theirs end at 23.
const NO_SUCH_STAGE: u32 = 255;

// The two numbers of a check, as the caller keeps it.
fn numbers_of(check: Check) -> [u16; 2]
    ensures { result ≡ check_numbers check }
{
    [check.limit, u16::from(check.stage)]
}

// Starts a production check against a limit in whole dB(A). Puts its two numbers, the limit and the stage, behind `check`, where the
// caller keeps them.
#[unsafe(no_mangle)]
pub extern "C" fn ruthimpo_production_start(limit: u16, check: &mut [u16; 2])
    ensures { check.new ≡ check_numbers (start_of limit) }
{
    *check = numbers_of(Check::start(limit));
}

// Offers a car by its L_urban to the check behind `check`. Answers 0 and puts the numbers of the next check there; or answers 20 with the number
// of cars counted in `place`, or 255 if no stage has that number, and leaves them as they were. `place` is 0 unless the answer is 20.
#[unsafe(no_mangle)]
pub extern "C" fn ruthimpo_production_offer(
    check: &mut [u16; 2],
    l_urban: u16,
    place: &mut usize,
) -> u32
    ensures code { result ≡ offer_code (restored_from check.old) l_urban }
    ensures place { place.new ≡ offer_place (restored_from check.old) l_urban }
    ensures check { check.new ≡ numbers_after (restored_from check.old) l_urban check.old }
    ensures annex { OfferInNumbers check.old l_urban result place.new check.new }
{
    let Some(before) = Check::restore(check[0], check[1]) else {
        *place = 0;
        return NO_SUCH_STAGE;
    };
    let offered = before.offer(l_urban);
    *check = numbers_of(offered.check);
    *place = refusal::answer_place(offered.reply);
    refusal::answer_number(offered.reply) as u32
}

// Reads the check behind `check`. Answers 0 and puts the status, 0 open, 1 conforms, 2 does not conform, into `status` and the number of cars still
// wanted into `wanted`; or answers 255 if no stage has that number, and leaves both as they were.
#[unsafe(no_mangle)]
pub extern "C" fn ruthimpo_production_status(
    check: &[u16; 2],
    status: &mut u8,
    wanted: &mut u8,
) -> u32
    ensures code { result ≡ status_code (restored_from check.now) }
    ensures status { status.new ≡ status_or (restored_from check.now) status.old }
    ensures wanted { wanted.new ≡ wanted_or (restored_from check.now) wanted.old }
    ensures annex { StatusInNumbers check.now result status.new wanted.new }
{
    let Some(restored) = Check::restore(check[0], check[1]) else {
        return NO_SUCH_STAGE;
    };
    *status = u8::from(restored.status());
    *wanted = restored.wanted();
    0
}

// A lorry of two axles, or a stand-in, from the numbers that are handed in.
fn lorry_of(power: u16, front: u16, rear: u16, rear_max: u16) -> TwoAxles
    ensures { result ≡ lorry_of power front rear rear_max }
{
    TwoAxles {
        power,
        front,
        rear,
        rear_max,
    }
}

// Puts the masses of a lorry and the place of its refusal behind two pointers, and answers the number of the refusal. A refusal leaves the masses as
// they were.
fn put_loading(
    loading: Result<Masses, RearOverloaded>,
    masses: &mut [u64; 4],
    place: &mut usize,
) -> u32
    ensures code { result ≡ loading_number loading }
    ensures place { place.new ≡ loading_place loading }
    ensures masses { masses.new ≡ masses_or loading masses.old }
{
    if let Ok(given) = loading {
        *masses = [given.mass.0, given.load.0, given.lowest.0, given.highest.0];
    }
    *place = refusal::answer_place(loading);
    refusal::answer_number(loading) as u32
}

// Reckons the test mass of a lorry of two axles from its power in tenths of kW, the unladen loads of its axles and the maximum of the rear one in
// kg. Answers 0 and puts the test mass, the load, 95% and 105% of the test mass, in ten-thousandths of a kg, into `masses`; or answers 21 and leaves
// them as they were. `place` is 0 for either.
#[unsafe(no_mangle)]
pub extern "C" fn ruthimpo_lorry_two_axles(
    power: u16,
    front: u16,
    rear: u16,
    rear_max: u16,
    masses: &mut [u64; 4],
    place: &mut usize,
) -> u32
    ensures code { result ≡ loading_number (two_axles_of (lorry_of power front rear rear_max)) }
    ensures place { place.new ≡ loading_place (two_axles_of (lorry_of power front rear rear_max)) }
    ensures masses { masses.new ≡ masses_or (two_axles_of (lorry_of power front rear rear_max)) masses.old }
{
    let two_axles = lorry_of(power, front, rear, rear_max);
    put_loading(lorry::two_axles(two_axles), masses, place)
}

// Reckons the test mass of a lorry of more axles from the numbers of its two-axle stand-in and its own unladen mass in kg. The answer is as for
// two axles.
#[unsafe(no_mangle)]
pub extern "C" fn ruthimpo_lorry_more_axles(
    power: u16,
    front: u16,
    rear: u16,
    rear_max: u16,
    own: u16,
    masses: &mut [u64; 4],
    place: &mut usize,
) -> u32
    ensures code { result ≡ loading_number (more_axles_of (lorry_of power front rear rear_max) own) }
    ensures place { place.new ≡ loading_place (more_axles_of (lorry_of power front rear rear_max) own) }
    ensures masses { masses.new ≡ masses_or (more_axles_of (lorry_of power front rear rear_max) own) masses.old }
{
    let stand_in = lorry_of(power, front, rear, rear_max);
    put_loading(lorry::more_axles(stand_in, own), masses, place)
}
