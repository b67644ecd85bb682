// Goes through every 32-bit float from 20.0 to 140.0. Compares the tenths that `level` gives with a reckoning in whole numbers that goes
// from one float to the next, and prints what it found for each ten decibels. Then some patterns of no level.
#![tactic(auto)]

ghost use Rattle.std.specs.Prelude.{◌≡◌, ◌+◌, ◌<◌, ◌≤◌};
ghost use Rattle.units.specs.Bytes.{number};
ghost use Rattle.level.specs.Reading.{reading_of};
ghost use Rattle.every_level.specs.Walking.{tenths_read, tenths_found, spacing, reached};

use level::Reading;
use std::io;

// The pattern of 20.0, and 20.0 and 140.0 as numbers of 2^-19.
const LOWEST_PATTERN: u32 = 0x41a0_0000;

const LOWEST: u32 = 10485760;

const HIGHEST: u32 = 73400320;

// 10.0 as a number of 2^-19.
const TEN: u32 = 5242880;

// Where the walk stands: a float's pattern, its value as a number of 2^-19, and its tenths.
#[derive(Clone, Copy)]
struct Walk {
    pattern: u32,
    value: u32,
    tenth: u16,
}

// What was found: how many floats, how many whose tenths differ, the sum of the tenths, and the sum of these sums, which depends on the
// order too.
#[derive(Clone, Copy, Default)]
struct Tally {
    count: u64,
    differ: u64,
    sum: u64,
    sums: u64,
}

// A part of the walk: where it ended, and what it found.
#[derive(Clone, Copy)]
struct Part {
    walk: Walk,
    tally: Tally,
}

// The bytes of a pattern, low byte first.
fn bytes_of(pattern: u32) -> [u8; 4]
    ensures { number result 0 4 ≡ pattern }
{
    pattern.to_le_bytes()
}

// The tenths of a level in range, and 0 of anything else.
#[tactic(auto, unfolding(crate::specs::Walking::tenths_read))]
fn tenths_read(reading: Reading) -> u16
    ensures { result ≡ tenths_read reading }
{
    match reading {
        Reading::Level(x) if level::in_range(x) => level::tenths(x).0,
        Reading::Level(_) | Reading::Overload(_) | Reading::Absent => 0,
    }
}

// The tenths of the level in four bytes, or 0 if they are no level.
#[tactic(auto, unfolding(crate::specs::Walking::tenths_found))]
fn tenths_of(four: &[u8; 4]) -> u16
    ensures { result ≡ tenths_found (reading_of 1 (number four.now 0 4)) }
{
    level::reading_at(1, four, 0).map_or(0, tenths_read)
}

// How far the next float is.
fn spacing(n: u32) -> u32
    ensures gap { result ≡ spacing n }
    ensures range { (0 < result) × (result ≤ 8) }
{
    if n < 16777216 {
        1
    } else if n < 33554432 {
        2
    } else if n < 67108864 {
        4
    } else {
        8
    }
}

// Whether a value is half a tenth or more above a tenth.
fn reached(n: u32, tenth: u16) -> bool
    ensures { result ≡ reached n tenth }
{
    524288 * (2 * tenth as u64 + 1) <= 20 * n as u64
}

// The next float. Two floats beside each other are less than a tenth apart.
fn next(w: Walk) -> Walk
    requires { w.value < 100000000 }
    ensures step { result.value ≡ w.value + spacing w.value }
    ensures rises { w.value < result.value }
{
    let value = w.value + spacing(w.value);
    let tenth = if reached(value, w.tenth) {
        w.tenth.wrapping_add(1)
    } else {
        w.tenth
    };
    Walk {
        pattern: w.pattern.wrapping_add(1),
        value,
        tenth,
    }
}

// One float more, with the tenths that were given and those that were reckoned.
fn counted(t: Tally, given: u16, reckoned: u16) -> Tally {
    let sum = t.sum.wrapping_add(u64::from(given));
    Tally {
        count: t.count.wrapping_add(1),
        differ: t.differ.wrapping_add(u64::from(given != reckoned)),
        sum,
        sums: t.sums.wrapping_add(sum),
    }
}

// The walk up to before a value.
fn walk_to(from: Walk, end: u32) -> Part
    requires { end ≤ 100000000 }
    ensures { end ≤ result.walk.value }
{
    let mut walk = from;
    let mut tally = Tally::default();
    while walk.value < end {
        let four = bytes_of(walk.pattern);
        tally = counted(tally, tenths_of(&four), walk.tenth);
        walk = next(walk);
    }
    Part { walk, tally }
}

fn print_tally(rt: &impl Print, level: u32, t: Tally) -> io::Result<()> {
    println!(rt;
        "from {level} {} {} {} {}",
        t.count, t.differ, t.sum, t.sums
    )
}

// The ends of the range and the floats outside of it, infinities, NaNs, zeros, the smallest floats and negative levels.
const PATTERNS: [u32; 19] = [
    0x419f_ffff,
    0x41a0_0000,
    0x430c_0000,
    0x430c_0001,
    0x7f7f_ffff,
    0x7f80_0000,
    0xff80_0000,
    0x7f80_0001,
    0x7fc0_0000,
    0x7fff_ffff,
    0xffc0_0000,
    0xffff_ffff,
    0x0000_0000,
    0x8000_0000,
    0x0000_0001,
    0x0080_0000,
    0xc1a0_0000,
    0xc2a0_0000,
    0xc30c_0000,
];

// Each pattern and its tenths, 0 if it is no level.
fn print_patterns(rt: &impl Print) -> io::Result<()> {
    for pattern in PATTERNS {
        let tenths = tenths_of(&bytes_of(pattern));
        println!(rt; "pattern {pattern} {tenths}")?;
    }
    Ok(())
}

// Each ten decibels from 20.0 to before 140.0, and where the walk stands then.
fn print_decades(rt: &impl Print) -> io::Result<Walk> {
    let mut walk = Walk {
        pattern: LOWEST_PATTERN,
        value: LOWEST,
        tenth: 200,
    };
    for decade in 2..14 {
        let part = walk_to(walk, (decade + 1) * TEN);
        print_tally(rt, 10 * decade, part.tally)?;
        walk = part.walk;
    }
    Ok(walk)
}

fn main(rt: HostRuntime) -> io::Result<()> {
    let walk = print_decades(&rt)?;
    let last = walk_to(walk, HIGHEST + 1);
    print_tally(&rt, 140, last.tally)?;
    print_patterns(&rt)
}
