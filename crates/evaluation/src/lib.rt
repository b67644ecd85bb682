// The evaluation of a sheet: any byte string to a result, or to one numbered refusal, with what it promises. Beside the code stand the table of
// refusals, close and rising, all as definitions of bytes.
#![tactic(auto)]

ghost use Rattle.std.specs.Prelude.{◌≡◌, Ok, length};
ghost use Rattle.units.specs.Bytes.{number};
ghost use Rattle.evaluation.specs.Answer.{answer_of, buffer_of};
ghost use Rattle.evaluation.specs.Demand.{CloseTo, RisesFrom};

use refusal::Refusal;

// The evaluation of a sheet: on success the result stands in the first 32 bytes of `res`; on a refusal no byte changes.
#[tactic(auto, using(crate::proofs::Close::close_written, crate::proofs::Rising::rises_written), unfolding(crate::specs::Answer::answer_of, crate::specs::Answer::answer_by, crate::specs::Answer::buffer_of, crate::specs::Answer::buffer_by))]
pub fn evaluate(sheet: &[u8], res: &mut [u8]) -> Result<(), Refusal>
    ensures answer { result ≡ answer_of sheet.now (length res.old) }
    ensures buffer { res.new ≡ buffer_of sheet.now res.old }
    ensures close { result ≡ Ok tt → CloseTo sheet.now (number res.new 10 2) }
    ensures rising { result ≡ Ok tt → RisesFrom sheet.now (number res.new 10 2) }
{
    if res.len() < 32 {
        return Err(Refusal::ShortBuffer);
    }
    let judged = decision::decide(sheet)?;
    result::write(judged.outcome, res);
    Ok(())
}
