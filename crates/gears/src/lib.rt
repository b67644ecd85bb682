// Accelerations and the gear rules (document 01, "From levels to windows", step 6, and "Gears"). No level comes in here.
#![tactic(auto)]

ghost use Rattle.std.specs.Prelude.{◌≡◌, ◌-◌, ◌*◌, ◌≤◌, ◌<◌, length};
ghost use Rattle.units.specs.Tests.{below};
ghost use Rattle.gears.specs.Acceleration.{acceleration_of, mean_of};
ghost use Rattle.gears.specs.Rules.{first_not_falling, gap, near, nearest, i_of, j_of, first_below, across_of, choice_of, k_of};

use reference::Reference;
use units::Hundredths;

fn square(x: u16) -> u32
    requires { x ≤ 1500 }
    ensures { (result ≡ x * x) × (result ≤ 2250000) }
{
    x as u32 * x as u32
}

// A run's acceleration, from its speeds in tenths of km/h and its path in cm.
#[tactic(auto, using(crate::proofs::Accelerations::acceleration_most), unfolding(crate::specs::Acceleration::acceleration_of))]
pub fn run_acceleration(start: u16, end: u16, path: u16) -> Hundredths
    requires speeds { (start ≤ end) × (end ≤ 1500) }
    requires path_range { (1000 ≤ path) × (path ≤ 4000) }
    ensures { result.0 ≡ acceleration_of start end path }
{
    let gained = square(end) - square(start);
    Hundredths(units::round(625 * gained, 162 * path as u32) as u16)
}

// A gear's acceleration: the mean of four, rounded.
#[tactic(auto, using(crate::proofs::Accelerations::mean_most), unfolding(crate::specs::Acceleration::mean_of))]
pub fn mean(a: Hundredths, b: Hundredths, c: Hundredths, d: Hundredths) -> Hundredths
    ensures { result.0 ≡ mean_of a.0 b.0 c.0 d.0 }
{
    Hundredths(units::round(a.0 as u32 + b.0 as u32 + c.0 as u32 + d.0 as u32, 4) as u16)
}

// A gear that remains.
#[derive(Clone, Copy, Debug, Default, PartialEq, Eq)]
pub struct Gear {
    pub number: u8,
    pub acceleration: Hundredths,
}

// The first place whose acceleration is not above the next one's, if there is one.
pub fn first_not_falling(gears: &[Gear]) -> Option<usize>
    ensures { result ≡ below (length gears.now - 1) (first_not_falling gears.now) }
{
    gears
        .windows(2)
        .position(|pair| pair[0].acceleration <= pair[1].acceleration)
}

// 3.00 m/s²: rule 2 takes no gear above it, rule 3 no pair whose first is above it, and rule 4 the first gear below it.
pub const CEILING: Hundredths = Hundredths(300);

// |x − y|
#[tactic(auto, unfolding(crate::specs::Rules::gap))]
fn distance(x: Hundredths, y: Hundredths) -> Hundredths
    ensures { result.0 ≡ gap x.0 y.0 }
{
    Hundredths(x.0.abs_diff(y.0))
}

// Whether an acceleration is near enough to R, which is a_ref, and low enough for rule 2.
#[tactic(auto, unfolding(crate::specs::Rules::near))]
fn is_near(a_ref: Hundredths, x: Hundredths) -> bool
    ensures { result ≡ near a_ref.0 x.0 }
{
    let d = distance(x, a_ref);
    20 * d.0 as u32 <= a_ref.0 as u32 && x <= CEILING
}

// The nearest gear so far: its place, and how far it is from R.
#[derive(Clone, Copy)]
struct Best {
    place: usize,
    distance: Hundredths,
}

// The place that rule 2 takes, if it takes one. Only a gear that is nearer takes the place of the best so far, so the lower number wins a tie.
fn nearest_place(gears: &[Gear], reference: Reference) -> Option<usize>
    ensures { result ≡ below (length gears.now) (nearest reference.a_ref.0 gears.now) }
{
    let a_ref = reference.a_ref;
    let mut best: Option<Best> = None;
    for (place, gear) in gears.iter().enumerate() {
        let d = distance(gear.acceleration, a_ref);
        if is_near(a_ref, gear.acceleration) && best.is_none_or(|b| d < b.distance) {
            best = Some(Best { place, distance: d });
        }
    }
    best.map(|b| b.place)
}

// What the rules decide on: the rule, and a place among the remaining gears.
#[derive(Clone, Copy, Debug, PartialEq, Eq)]
pub enum Choice {
    // that gear alone
    One(u8, usize),
    // that gear and the next one
    Pair(u8, usize),
}

// The place of i: the last gear that reaches R, if one does.
fn i_place(gears: &[Gear], reference: Reference) -> Option<usize>
    ensures { result ≡ i_of reference.a_ref.0 gears.now }
{
    gears
        .iter()
        .rposition(|g| reference.a_ref <= g.acceleration)
}

// The first gear below the ceiling, if there is one.
fn below_ceiling(gears: &[Gear]) -> Option<usize>
    ensures { result ≡ below (length gears.now) (first_below gears.now) }
{
    gears.iter().position(|g| g.acceleration < CEILING)
}

// Rules 3 to 5.
fn across(gears: &[Gear], reference: Reference) -> Option<Choice>
    ensures { result ≡ across_of reference.a_urban.0 gears.now (j_of reference.a_ref.0 gears.now) }
{
    let i = i_place(gears, reference)?;
    let j = i + 1;
    if gears.len() <= j {
        return None;
    }
    if gears[i].acceleration <= CEILING {
        return Some(Choice::Pair(3, i));
    }
    if reference.a_urban <= gears[j].acceleration {
        return below_ceiling(gears).map(|f| Choice::One(4, f));
    }
    Some(Choice::Pair(5, i))
}

// The five rules over the gears that remain.
pub fn choose(gears: &[Gear], reference: Reference) -> Option<Choice>
    ensures { result ≡ choice_of reference gears.now }
{
    match gears.len() {
        0 => None,
        1 => Some(Choice::One(1, 0)),
        _ => match nearest_place(gears, reference) {
            Some(nearest) => Some(Choice::One(2, nearest)),
            None => across(gears, reference),
        },
    }
}

// The weight of gear i in a pair, in hundredths.
#[tactic(auto, using(crate::proofs::Accelerations::k_most), unfolding(crate::specs::Rules::k_of))]
pub fn k(reference: Hundredths, i: Hundredths, j: Hundredths) -> u8
    requires { (j.0 < reference.0) × (reference.0 ≤ i.0) }
    ensures { result ≡ k_of reference.0 i.0 j.0 }
{
    let from = (reference.0 - j.0) as u32;
    let whole = (i.0 - j.0) as u32;
    units::round(100 * from, whole) as u8
}
