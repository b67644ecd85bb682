// The driven examples of document 01, those of wish 2 of document 02, and what stands under "Where the spreadsheet tempts", by single
// functions: each on a line.
#![tactic(auto)]

ghost use Rattle.std.specs.Prelude.{◌≤◌};

use gears::{Choice, Gear};
use level::Reading;
use reference::{PmrInRange, Reference};
use std::io;
use units::{Hundredths, Tenths};
use window::{Four, ValidRun};

// The corrected level, in tenths, of a level over a background in tenths.
fn side(rt: &impl Print, text: &str, x: f32, background: u16) -> io::Result<()> {
    match level::side_of(Reading::Level(x), Tenths(background)) {
        Some(corrected) => println!(rt; "{text}{}", corrected.0),
        None => println!(rt; "{text}not valid"),
    }
}

fn sides(rt: &impl Print) -> io::Result<()> {
    side(rt, "72.25 ", 72.25, 0)?;
    side(rt, "72.125 ", 72.125, 0)?;
    side(rt, "d 10.4 ", 50.4, 400)?;
    side(rt, "d 10.5 ", 50.5, 400)?;
    side(rt, "d 10.9 ", 50.9, 400)?;
    side(rt, "d 14.4 ", 54.4, 400)?;
    side(rt, "d 14.5 ", 54.5, 400)?;
    side(rt, "d 15.0 ", 55.0, 400)?;
    side(rt, "d 15.9 ", 55.9, 400)?;
    side(rt, "d 9.9 ", 49.9, 400)
}

fn run_of(left: u16, right: u16) -> ValidRun {
    ValidRun {
        left: Tenths(left),
        right: Tenths(right),
        start: 440,
        end: 560,
        engine: 4000,
        number: 1,
    }
}

// Whether a, b and twice c are a window: 1 if so.
fn window(rt: &impl Print, text: &str, a: ValidRun, b: ValidRun, c: ValidRun) -> io::Result<()> {
    let four = Four { a, b, c, d: c };
    println!(rt; "{text}{}", u8::from(window::fits(four)))
}

fn windows(rt: &impl Print) -> io::Result<()> {
    let low = run_of(700, 700);
    let middle = run_of(710, 710);
    let top = run_of(720, 720);
    let high = run_of(721, 721);
    window(rt, "runs 1 to 4 ", low, high, middle)?;
    window(rt, "runs 2 to 5 ", high, middle, middle)?;
    window(rt, "70.0 with 72.0 ", low, top, middle)?;
    // 4.0 as a sum
    window(rt, "sides alike, 2.0 each ", low, top, top)?;
    // nothing as a sum
    let left = run_of(721, 700);
    window(rt, "sides opposed, 2.1 each ", run_of(700, 721), left, left)
}

// a_urban and a_ref of a PMR in tenths.
fn reference(rt: &impl Print, q: u16) -> io::Result<()>
    requires { (50 ≤ q) × (q ≤ 6000) }
{
    let pmr = PmrInRange::of(q);
    let a_urban = pmr.a_urban().0;
    let a_ref = pmr.a_ref().0;
    println!(rt; "PMR {q} {a_urban} {a_ref}")
}

fn references(rt: &impl Print) -> io::Result<()> {
    reference(rt, 250)?;
    reference(rt, 249)?;
    reference(rt, 1000)?;
    reference(rt, 6000)?;
    reference(rt, 50)?;
    println!(rt; "PMR of 100.0 and 1500 {}", reference::pmr(1000, 1500))
}

// PMR 66.7, a_urban 1.06, a_ref 1.49.
const CAR: Reference = Reference {
    pmr: 667,
    a_urban: Hundredths(106),
    a_ref: Hundredths(149),
};

// The rule, and the place among the two gears, from 0; nothing where the rules choose no gear alone.
fn choice(rt: &impl Print) -> io::Result<()> {
    let gears = [gear_of(2, 156), gear_of(3, 142)];
    if let Some(Choice::One(rule, place)) = gears::choose(&gears, CAR) {
        println!(rt; "R 1.49, gears 1.56 and 1.42 one {rule} {place}")?;
    }
    Ok(())
}

fn gear_of(number: u8, acceleration: u16) -> Gear {
    Gear {
        number,
        acceleration: Hundredths(acceleration),
    }
}

// kp and L_urban of one gear.
fn urban(rt: &impl Print, text: &str, a: u16, w: u16, c: u16) -> io::Result<()> {
    let l = urban::l_urban(CAR, Hundredths(a), Tenths(w), Tenths(c));
    println!(rt; "{text}{} {}", l.kp, l.level)
}

fn main(rt: HostRuntime) -> io::Result<()> {
    sides(&rt)?;
    windows(&rt)?;
    references(&rt)?;
    let a = gears::run_acceleration(440, 560, 2450);
    println!(rt; "44.0 to 56.0, length 450, AA' {}", a.0)?;
    choice(&rt)?;
    urban(&rt, "a 1.00, W 66.0, C 66.0 ", 100, 660, 660)?;
    urban(&rt, "a 1.00, W 65.0, C 66.0 ", 100, 650, 660)?;
    urban(&rt, "a 1.56, W 72.0, C 65.0 ", 156, 720, 650)?;
    // k × (L(i) − L(j)) is minus half a tenth
    let w = urban::weighed(50, Tenths(700), Tenths(701));
    println!(rt; "k 0.50, L(i) 70.0, L(j) 70.1 {}", w.0)
}
