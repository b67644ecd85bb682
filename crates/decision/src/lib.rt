// What is decided for a byte string: the first refusal of the table whose cause holds (row 2 and those after it), or the fields of the result with
// the limit found. No buffer is known here.
#![tactic(auto)]

ghost use Rattle.std.specs.Prelude.{◌≡◌, ◌≤◌, ◌<◌, length, Some};
ghost use Rattle.record.specs.declared.RunKind.TheVariants.{ConstantSpeed};
ghost use Rattle.valid_runs.specs.ValidRuns.{backgrounds_of};
ghost use Rattle.gears.specs.Rules.{Inside};
ghost use Rattle.session.specs.Session.{session_of, window_in, gears_in, windows_in};
ghost use Rattle.decision.specs.Decision.{measured_by, measured_at, selected_in, decide_gears, decide_whole, track_of, decision_of};

use gears::Choice;
use record::{Closing, RunKind, Vehicle};
use reference::{PmrInRange, Reference};
use refusal::Refusal;
use session::{Entry, Session, Table, Track};
use sheet::{Sheet, Whole};
use urban::{Chosen, ChosenGear, Outcome};

// What is decided for a sheet that is not refused: the fields of the result, and the limit that L_urban was judged against, in whole dB(A).
#[derive(Clone, Copy)]
pub struct Judged {
    pub outcome: Outcome,
    pub limit: u16,
}

// A gear with its acceleration window: its constant-speed window is looked for.
#[tactic(auto, unfolding(crate::specs::Decision::measured_by))]
fn measure(session: &Session<'_>, entry: Entry) -> Result<ChosenGear, Refusal>
    ensures { result ≡ measured_by entry.gear entry.window (window_in session.now ConstantSpeed entry.gear.number) }
{
    let gear = entry.gear;
    let constant_window = session
        .window(RunKind::ConstantSpeed, gear.number)
        .map_err(|shortage| Refusal::NoConstantSpeed(gear.number, shortage))?;
    Ok(ChosenGear {
        gear,
        acceleration_window: entry.window,
        constant_window,
    })
}

// The gear at a place of the table.
#[tactic(auto, unfolding(crate::specs::Decision::window_at, crate::specs::Decision::measured_at))]
fn measure_at(session: &Session<'_>, table: &Table, p: usize) -> Result<ChosenGear, Refusal>
    requires { p < length (gears_in table.now) }
    ensures { result ≡ measured_at session.now (gears_in table.now) (windows_in table.now) p }
{
    measure(session, table.entry(p))
}

// Rows 9 and 10: the gear or the pair of the choice, with its windows. Gear i of a pair has the lower number: it is refused first.
#[tactic(auto, unfolding(crate::specs::Decision::one_of, crate::specs::Decision::pair_of, crate::specs::Decision::selected_in))]
fn select(session: &Session<'_>, table: &Table, choice: Choice) -> Result<Chosen, Refusal>
    requires { (length (gears_in table.now) ≤ 16) × Inside (length (gears_in table.now)) (Some choice) }
    ensures { result ≡ selected_in session.now (gears_in table.now) (windows_in table.now) (Some choice) }
{
    match choice {
        Choice::One(rule, p) => {
            let gear = measure_at(session, table, p)?;
            Ok(Chosen::One(rule, gear))
        }
        Choice::Pair(rule, p) => {
            let i = measure_at(session, table, p)?;
            let j = measure_at(session, table, p + 1)?;
            Ok(Chosen::Pair(rule, i, j))
        }
    }
}

// Rows 8 to 10, from the table of the session.
#[tactic(auto, using(units::proofs::Below::below_some, units::proofs::Below::below_none, crate::proofs::Decisions::row_8, crate::proofs::Decisions::rows_9_and_10, crate::proofs::Selections::chosen_inside, crate::proofs::Selections::chosen_straddled), unfolding(gears::specs::Rules::empty_gear, gears::specs::Rules::gear_at, crate::specs::Decision::selected_in, crate::specs::Decision::finish_by))]
fn decide_table(
    session: &Session<'_>,
    reference: Reference,
    limit: u16,
    table: &Table,
) -> Result<Judged, Refusal>
    ensures { result ≡ decide_gears reference limit session.now (gears_in table.now) (windows_in table.now) }
{
    let gears = table.gears();
    if let Some(p) = gears::first_not_falling(&gears) {
        return Err(Refusal::NotFalling(gears[p].number));
    }
    let choice = gears::choose(&gears, reference).ok_or(Refusal::NoRule)?;
    let chosen = select(session, table, choice)?;
    let basis = urban::basis_of(reference, chosen);
    Ok(Judged {
        outcome: urban::outcome_of(reference, limit, basis),
        limit,
    })
}

// Rows 6 to 10, for this PMR, in tenths, and a limit.
#[tactic(auto, using(crate::proofs::Decisions::no_pmr, crate::proofs::Decisions::its_pmr, crate::proofs::Decisions::row_6, crate::proofs::Decisions::row_7_none, crate::proofs::Decisions::row_7_gear), unfolding(session::specs::Session::table_of))]
fn decide_whole(session: &Session<'_>, pmr: u32, limit: u16) -> Result<Judged, Refusal>
    ensures { result ≡ decide_whole session.now pmr limit }
{
    let Some(in_range) = PmrInRange::new(pmr) else {
        return Err(Refusal::PmrOutOfRange);
    };
    if !session.any_acceleration() {
        return Err(Refusal::NoRun);
    }
    let table = session.table();
    if let Some(w) = table.without_window {
        return Err(Refusal::NoWindow(w.gear, w.shortage));
    }
    decide_table(session, in_range.reference(), limit, &table)
}

// What a session is evaluated by.
#[tactic(auto, unfolding(crate::specs::Decision::track_of))]
fn track_of(v: Vehicle, z: Closing) -> Track
    requires { v.length ≤ 2000 }
    ensures { result ≡ track_of (backgrounds_of v.backgrounds z.backgrounds) v }
{
    let backgrounds = valid_runs::backgrounds(v.backgrounds, z.backgrounds);
    Track {
        backgrounds,
        rated: v.rated_speed,
        path: record::path_of(v),
    }
}

// What is decided for any byte string: rows 2 to 5 are the examination's, rows 11 and 12 the limit's, and rows 6 to 10 follow with the limit found.
#[tactic(auto, using(sheet::proofs::Examinations::runs_good, sheet::proofs::Examinations::mass_positive, sheet::proofs::Examinations::length_range, crate::proofs::Decisions::of_examination, crate::proofs::Decisions::decision_is), unfolding(crate::specs::Decision::decide_limited, crate::specs::Decision::track_of))]
pub fn decide(sheet: &[u8]) -> Result<Judged, Refusal>
    ensures { result ≡ decision_of sheet.now }
{
    let Whole { vehicle, closing } = sheet::examine(sheet)?;
    let pmr = reference::pmr(vehicle.power, vehicle.mass);
    let limit = limit::limit_of(vehicle, pmr)?;
    let track = track_of(vehicle, closing);
    let session = Session::of(Sheet::of(sheet), track);
    decide_whole(&session, pmr, limit)
}
