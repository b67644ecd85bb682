// The verdict on the four levels of a motorcycle (document 02, wish 14; document 003, annex 3, 1.5). Nothing else is asked for: no sheet and
// no background.
#![tactic(auto)]

ghost use Rattle.std.specs.Prelude.{◌≡◌, ◌≤◌, T};
ghost use Rattle.std.specs.Float.{binary32};
ghost use Rattle.std.specs.Float.Ieee.{of_bits};
ghost use Rattle.units.specs.Tests.{below};
ghost use Rattle.level.specs.Reading.{in_range};
ghost use Rattle.motorcycle.specs.Verdict.{first_outside, whole_of, far_apart, verdict_of, number_of, place_of};
ghost use Rattle.motorcycle.specs.Patterns.{levels_of};

use refusal::Numbered;

// Four levels as the meter gave them, any floats: 1 and 2 are of the left side, 3 and 4 of the right.
#[derive(Clone, Copy, Debug)]
pub struct Levels {
    pub first: f32,
    pub second: f32,
    pub third: f32,
    pub fourth: f32,
}

// A mean of four levels, in quarters of a dB(A).
#[derive(Clone, Copy, Debug, PartialEq, Eq, PartialOrd, Ord)]
pub struct Quarters(pub u16);

// What is judged of four levels: their mean, and whether it passes.
#[derive(Clone, Copy, Debug, PartialEq, Eq)]
pub struct JudgedMean {
    pub mean: Quarters,
    pub pass: bool,
}

// Why four levels are not judged.
#[derive(Clone, Copy, Debug, PartialEq, Eq)]
pub enum LevelRefusal {
    // 22: the number, 1 to 4, of the first level that is out of range
    LevelOutOfRange(u8),
    // 23: the first side, 1 left or 2 right, whose two levels differ by more than 2 dB
    SideFarApart(u8),
}

impl Numbered for LevelRefusal {
    ghost number = { number_of };

    ghost place = { place_of };

    fn number(self) -> u8 {
        match self {
            LevelRefusal::LevelOutOfRange(_) => 22,
            LevelRefusal::SideFarApart(_) => 23,
        }
    }

    // The level's number, or the side.
    fn place(self) -> usize {
        match self {
            LevelRefusal::LevelOutOfRange(n) => n as usize,
            LevelRefusal::SideFarApart(side) => side as usize,
        }
    }
}

// The number of the first level that is out of range; none if all four are in range.
fn first_outside(levels: Levels) -> Option<u8>
    ensures { result ≡ below 5 (first_outside levels) }
{
    let all = [levels.first, levels.second, levels.third, levels.fourth];
    let at = all.iter().position(|x| !level::in_range(*x))?;
    Some(at as u8 + 1)
}

// A level in whole decibels: rounded to a tenth first, and then these tenths to a whole decibel.
#[tactic(auto, using(crate::proofs::Means::whole_range), unfolding(crate::specs::Verdict::whole_of))]
fn whole(x: f32) -> u16
    requires { T (in_range x) }
    ensures value { result ≡ whole_of x }
    ensures within { (20 ≤ result) × (result ≤ 140) }
{
    units::whole_decibels(level::tenths(x))
}

// Whether two levels of a side, in whole decibels, differ by more than 2.
#[tactic(auto, unfolding(crate::specs::Verdict::far_apart))]
fn far_apart(a: u16, b: u16) -> bool
    ensures { result ≡ far_apart a b }
{
    a.abs_diff(b) > 2
}

// The verdict on four levels against a limit in whole dB(A). The mean is judged at 32 bits, since four times a limit may not fit into 16.
pub fn judge(levels: Levels, limit: u16) -> Result<JudgedMean, LevelRefusal>
    ensures { result ≡ verdict_of levels limit }
{
    if let Some(number) = first_outside(levels) {
        return Err(LevelRefusal::LevelOutOfRange(number));
    }
    let a = whole(levels.first);
    let b = whole(levels.second);
    if far_apart(a, b) {
        return Err(LevelRefusal::SideFarApart(1));
    }
    let c = whole(levels.third);
    let d = whole(levels.fourth);
    if far_apart(c, d) {
        return Err(LevelRefusal::SideFarApart(2));
    }
    let mean = (a - 1) + (b - 1) + (c - 1) + (d - 1);
    Ok(JudgedMean {
        mean: Quarters(mean),
        pass: mean as u32 <= 4 * limit as u32,
    })
}

// The float of a bit pattern. A NaN is made by a division, since the language reads no float from the pattern of one.
fn float_of(pattern: u32) -> f32
    ensures { result ≡ of_bits binary32 pattern }
{
    if pattern % 0x8000_0000 > 0x7f80_0000 {
        return 0.0 / 0.0;
    }
    f32::from_bits(pattern)
}

// The levels of four bit patterns, in their order.
#[tactic(auto, unfolding(crate::specs::Patterns::levels_of))]
pub fn levels_of(patterns: &[u32; 4]) -> Levels
    ensures { result ≡ levels_of patterns.now }
{
    Levels {
        first: float_of(patterns[0]),
        second: float_of(patterns[1]),
        third: float_of(patterns[2]),
        fourth: float_of(patterns[3]),
    }
}
