// Valid runs: the background of each side, the validity rule, and the first window of a condition in a sheet. No acceleration is known here.
#![tactic(auto)]

ghost use Rattle.std.specs.Prelude.{◌≡◌, true, ◌<◌, drop};
ghost use Rattle.arrayvec.specs.ArrayVec.{array_vec_len};
ghost use Rattle.record.specs.Records.{records, record_at, run_good};
ghost use Rattle.valid_runs.specs.ValidRuns.{backgrounds_of, valid_of, candidate_of, window_of};

use arrayvec::ArrayVec;
use record::{Backgrounds, Record, Run, RunKind};
use refusal::Shortage;
use sheet::Sheet;
use window::{Four, ValidRun};

// A gear and a run kind, with the backgrounds of their runs.
#[derive(Clone, Copy)]
pub struct Condition {
    pub backgrounds: Backgrounds,
    pub kind: RunKind,
    pub gear: u8,
}

// The backgrounds of both sides: on each the larger of the two, before and after.
#[tactic(auto, unfolding(crate::specs::ValidRuns::backgrounds_of))]
pub fn backgrounds(before: Backgrounds, after: Backgrounds) -> Backgrounds
    ensures { result ≡ backgrounds_of before after }
{
    Backgrounds {
        left: before.left.max(after.left),
        right: before.right.max(after.right),
    }
}

// The validity rule of a run: each side against its own background.
#[tactic(auto, unfolding(crate::specs::ValidRuns::both_sides, crate::specs::ValidRuns::valid_of))]
pub fn valid(run: Run, backgrounds: Backgrounds, number: u16) -> Option<ValidRun>
    ensures { result ≡ valid_of run backgrounds number }
{
    if run.struck {
        return None;
    }
    Some(ValidRun {
        left: level::side_of(run.left_reading(), backgrounds.left)?,
        right: level::side_of(run.right_reading(), backgrounds.right)?,
        start: run.start_speed,
        end: run.end_speed,
        engine: run.engine_speed,
        number,
    })
}

// Record `number` of a sheet as a run of a condition.
#[tactic(auto, using(record::proofs::Shown::record_long, record::proofs::Layouts::left_no_nan, record::proofs::Layouts::right_no_nan), unfolding(crate::specs::ValidRuns::candidate_of))]
fn candidate(sheet: &[u8], condition: Condition, number: u16) -> Option<ValidRun>
    requires { (number < records sheet.now) × (run_good (record_at sheet.now number) ≡ true) }
    ensures { result ≡ candidate_of sheet.now condition number }
{
    let r = Record::at(sheet, number as usize);
    if (r[0] == condition.kind.byte()) & (r[1] == condition.gear) {
        valid(record::run_in(r), condition.backgrounds, number)
    } else {
        None
    }
}

// Full runs that hold no window: the last three, which may begin one, stay.
fn carry(runs: &mut ArrayVec<ValidRun, 16>)
    requires { array_vec_len runs.old ≡ 16 }
    ensures { runs.new.items ≡ drop 13 runs.old.items }
{
    let last = [runs[13], runs[14], runs[15]];
    runs.clear();
    runs.push(last[0]);
    runs.push(last[1]);
    runs.push(last[2]);
}

// The first window of a condition in a sheet, or why there is none. Runs that count are gathered 16 at a time. Once three were carried, there are
// more runs than are held: they are not too few, however few are held at the end.
#[tactic(auto, using(crate::proofs::Seeking::next_range, crate::proofs::Seeking::sought_start, crate::proofs::Seeking::sought_next, crate::proofs::Seeking::sought_other), unfolding(record::specs::Records::records))]
pub fn window_of(sheet: &Sheet<'_>, condition: Condition) -> Result<Four, Shortage>
    ensures { result ≡ window_of sheet.now condition }
{
    let bytes = sheet.bytes();
    let last = bytes.len() / Record::SIZE - 1;
    let mut runs: ArrayVec<ValidRun, 16> = ArrayVec::new();
    let mut carried = false;
    let mut from = 1;
    while let Some(i) = sheet::next_with(bytes, 1, condition.gear, from, last) {
        from = i + 1;
        let Some(run) = candidate(bytes, condition, i as u16) else {
            continue;
        };
        runs.push(run);
        if runs.is_full() {
            if let Ok(four) = window::first_window(&runs) {
                return Ok(four);
            }
            carry(&mut runs);
            carried = true;
        }
    }
    let found = window::first_window(&runs);
    if carried {
        found.or(Err(Shortage::TooWide))
    } else {
        found
    }
}
