// From a reading of the meter to one side's corrected level (document 01, "The sheet", and "From levels to windows", steps 1 to 3;
// document 02, wish 2). Floats are rounded and compared here alone; nothing is known of runs.
#![tactic(auto)]

ghost use Rattle.std.specs.Prelude.{◌≡◌, ◌+◌, ◌≤◌, length, T};
ghost use Rattle.std.specs.Float.{binary32};
ghost use Rattle.std.specs.Float.Ieee.{of_bits};
ghost use Rattle.units.specs.Bytes.{number};
ghost use Rattle.level.specs.Reading.{in_range, reading_of, level_of};
ghost use Rattle.level.specs.Level.{tenths_of, correction_of, corrected_side, side_of};

use units::Tenths;

// What the meter gave for one side of a run.
#[derive(Clone, Copy)]
pub enum Reading {
    Level(f32),
    // the last level shown
    Overload(f32),
    Absent,
}

// Whether a float is a level in range: finite, and from 20.0 to 140.0.
#[tactic(auto, using(crate::proofs::Range::low_out, crate::proofs::Range::high_decides))]
pub fn in_range(x: f32) -> bool
    ensures { result ≡ in_range x }
{
    x >= 20.0 && x <= 140.0
}

// The float of a bit pattern, if it is a level in range. No float is made from the pattern of a NaN.
#[tactic(auto, using(crate::proofs::Range::nan_out, crate::proofs::Range::no_nan), unfolding(crate::specs::Reading::level_of))]
fn level_of(pattern: u32) -> Option<f32>
    ensures { result ≡ level_of (of_bits binary32 pattern) }
{
    if pattern % 0x8000_0000 > 0x7f80_0000 {
        return None;
    }
    let x = f32::from_bits(pattern);
    if in_range(x) { Some(x) } else { None }
}

// The reading of a kind byte and the four bytes of `s` from `at`, if they are one.
#[tactic(auto, using(crate::proofs::Readings::absent, crate::proofs::Readings::level, crate::proofs::Readings::overload, crate::proofs::Readings::unknown))]
pub fn reading_at(kind: u8, s: &[u8], at: usize) -> Option<Reading>
    requires { at + 4 ≤ length s.now }
    ensures { result ≡ reading_of kind (number s.now at 4) }
{
    let pattern = units::number32(s, at);
    if kind == 0 {
        return (pattern == 0).then_some(Reading::Absent);
    }
    if kind > 2 {
        return None;
    }
    let x = level_of(pattern)?;
    if kind == 1 {
        Some(Reading::Level(x))
    } else {
        Some(Reading::Overload(x))
    }
}

// A level's exact value, rounded to a tenth. A float of 20 or more has no digit below 2^-19, so 2^19 times it is a whole number,
// which an `f64` holds.
#[tactic(auto, using(crate::proofs::Scaled::scaled, crate::proofs::Rising::tenths_range))]
pub fn tenths(x: f32) -> Tenths
    requires { T (in_range x) }
    ensures { result.0 ≡ tenths_of x }
{
    let n = (x as f64 * 524288.0) as u32;
    Tenths(units::round(10 * n, 524288) as u16)
}

// What is taken off for a whole difference of 10, 11, .. 15 dB.
const CORRECTIONS: [Tenths; 6] = [
    Tenths(5),
    Tenths(4),
    Tenths(3),
    Tenths(2),
    Tenths(1),
    Tenths(0),
];

// What is taken off for a difference d: the table's entry at the nearest whole decibel, and nothing past its end, from 15.5 on. That is
// asked first, since a run so far above the background needs no rounding.
#[tactic(auto, using(crate::proofs::Corrections::nothing_off), unfolding(crate::specs::Level::correction_of, crate::specs::Level::corrections, units::specs::Rounding::rounded))]
fn correction(d: Tenths) -> Tenths
    requires { 100 ≤ d.0 }
    ensures { result.0 ≡ correction_of d.0 }
{
    if d.0 >= 155 {
        return Tenths(0);
    }
    let at = (units::whole_decibels(d) - 10) as usize;
    CORRECTIONS[at]
}

// A rounded level against its background: the corrected level, if the side counts.
#[tactic(auto, using(crate::proofs::Sides::side_counts, crate::proofs::Sides::too_near, crate::proofs::Corrections::correction_small))]
pub fn corrected(level: Tenths, background: Tenths) -> Option<Tenths>
    ensures { result ≡ corrected_side level.0 background.0 }
{
    let d = Tenths(level.0.checked_sub(background.0)?);
    if d.0 < 100 {
        return None;
    }
    Some(Tenths(level.0 - correction(d).0))
}

// The validity rule of one side: its corrected level, if it counts.
#[tactic(auto, unfolding(crate::specs::Level::side_of))]
pub fn side_of(reading: Reading, background: Tenths) -> Option<Tenths>
    ensures { result ≡ side_of reading background.0 }
{
    match reading {
        Reading::Level(x) if in_range(x) => corrected(tenths(x), background),
        Reading::Level(_) | Reading::Overload(_) | Reading::Absent => None,
    }
}
