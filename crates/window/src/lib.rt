// Windows: four neighbouring valid runs that lie close together, the level of a condition, and the search for the first window in a lent slice.
// Neither a sheet nor an acceleration is known here.
#![tactic(auto)]

ghost use Rattle.std.specs.Prelude.{◌≡◌, List, [], ◌∷◌, ◌++◌, map, ℕ, ◌+◌, ◌≤◌, ◌<◌, length};
ghost use Rattle.window.specs.Extremes.{AreExtremes};
ghost use Rattle.window.specs.Windows.{spanned, fitting, condition_level, four_at, shortage_of, first_window};

use refusal::Shortage;
use units::Tenths;

// A run that counts, with its corrected levels.
#[derive(Clone, Copy, Debug, Default, PartialEq, Eq)]
pub struct ValidRun {
    pub left: Tenths,
    pub right: Tenths,
    // tenths of km/h at the start line and at BB'
    pub start: u16,
    pub end: u16,
    // the highest engine speed before BB', per minute
    pub engine: u16,
    // its record
    pub number: u16,
}

// Four neighbours among the runs that count.
#[derive(Clone, Copy, Debug, Default, PartialEq, Eq)]
pub struct Four {
    pub a: ValidRun,
    pub b: ValidRun,
    pub c: ValidRun,
    pub d: ValidRun,
}

// The greatest and the least of the levels read so far.
#[derive(Clone, Copy)]
struct Extremes {
    greatest: Tenths,
    least: Tenths,
}

// The extremes of the first level read: it is both.
fn first_read(level: Tenths) -> Extremes
    ensures { AreExtremes (level.0 ∷ []) result }
{
    Extremes {
        greatest: level,
        least: level,
    }
}

// The extremes after one level more, where those of the levels before it, however many, are `held`.
fn next_read(held: Extremes, level: Tenths) -> Extremes
    ensures { (others : List ℕ) → AreExtremes others held → AreExtremes (others ++ level.0 ∷ []) result }
{
    Extremes {
        greatest: held.greatest.max(level),
        least: held.least.min(level),
    }
}

// The pass over the levels of a side, each read once: what it holds after all of them.
fn extremes_of(first: Tenths, others: &[Tenths]) -> Extremes
    ensures { AreExtremes (map (λ level. level.0) (first ∷ others.now)) result }
{
    others
        .iter()
        .fold(first_read(first), |held, level| next_read(held, *level))
}

// The widest span of four neighbours, 2.0 dB.
const WIDEST: Tenths = Tenths(20);

// Whether four levels span at most 2.0 dB. There is no bad input: they are any four numbers of 16 bits, and at 32 bits the least with
// 2.0 dB added cannot overflow.
#[tactic(auto, using(crate::proofs::HeldExtremes::four_span))]
fn spans(a: Tenths, b: Tenths, c: Tenths, d: Tenths) -> bool
    ensures { result ≡ spanned a.0 b.0 c.0 d.0 }
{
    let held = extremes_of(a, &[b, c, d]);
    let limit = held.least.0 as u32 + WIDEST.0 as u32;
    (held.greatest.0 as u32) <= limit
}

// The four-value test: both sides of four runs.
#[tactic(auto, unfolding(crate::specs::Windows::fitting))]
pub fn fits(f: Four) -> bool
    ensures { result ≡ fitting f }
{
    spans(f.a.left, f.b.left, f.c.left, f.d.left)
        & spans(f.a.right, f.b.right, f.c.right, f.d.right)
}

// Four levels added, in tenths of dB(A): four times their mean.
fn sum(a: Tenths, b: Tenths, c: Tenths, d: Tenths) -> u32
    ensures { (result ≡ a.0 + b.0 + c.0 + d.0) × (result ≤ 262140) }
{
    a.0 as u32 + b.0 as u32 + c.0 as u32 + d.0 as u32
}

// The level of a condition: the larger of the two sides' means, rounded to a tenth.
pub fn condition_level(f: Four) -> Tenths
    ensures { result.0 ≡ condition_level f }
{
    let left = sum(f.a.left, f.b.left, f.c.left, f.d.left);
    let right = sum(f.a.right, f.b.right, f.c.right, f.d.right);
    Tenths(units::round(left.max(right), 4) as u16)
}

// Why `count` valid runs have no window, where they have none.
#[tactic(auto, unfolding(crate::specs::Windows::shortage_of))]
fn shortage_of(count: usize) -> Shortage
    ensures { result ≡ shortage_of count }
{
    if count < 4 {
        Shortage::TooFew
    } else {
        Shortage::TooWide
    }
}

// Four neighbours, from place i on.
#[tactic(auto, unfolding(crate::specs::Windows::empty_run, crate::specs::Windows::four_at))]
fn four_at(runs: &[ValidRun], i: usize) -> Four
    requires { i + 3 < length runs.now }
    ensures { result ≡ four_at runs.now i }
{
    Four {
        a: runs[i],
        b: runs[i + 1],
        c: runs[i + 2],
        d: runs[i + 3],
    }
}

// The first window among lent runs, or why there is none.
#[tactic(auto, using(crate::proofs::Parts::first_of, crate::proofs::Parts::none_of))]
pub fn first_window(runs: &[ValidRun]) -> Result<Four, Shortage>
    ensures { result ≡ first_window runs.now }
{
    for i in 0..runs.len().saturating_sub(3) {
        let f = four_at(runs, i);
        if fits(f) {
            return Ok(f);
        }
    }
    Err(shortage_of(runs.len()))
}
