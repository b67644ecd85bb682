// From the chosen gears with their windows to the fields of the result: W, C and a', kp and L_urban (document 01, end of "Gears", and
// "L_urban"). No sheet is known here.
#![tactic(auto)]

ghost use Rattle.std.specs.Prelude.{◌≡◌, ◌≤◌, ◌<◌};
ghost use Rattle.urban.specs.declared.Chosen.TheVariants.{Pair};
ghost use Rattle.urban.specs.Urban.{Straddled, weighed_level, basis_of, part_power, l_urban_of, outcome_of};

use gears::Gear;
use reference::Reference;
use units::{Hundredths, Tenths};
use window::Four;

// A chosen gear with its two windows.
#[derive(Clone, Copy)]
pub struct ChosenGear {
    pub gear: Gear,
    pub acceleration_window: Four,
    pub constant_window: Four,
}

// What the gear rules decide on, with the windows: the rule, and one gear or gears i and j.
#[derive(Clone, Copy)]
pub enum Chosen {
    One(u8, ChosenGear),
    Pair(u8, ChosenGear, ChosenGear),
}

// What L_urban is reckoned from, alike for one gear and for a pair: W, C and a'.
#[derive(Clone, Copy)]
pub struct Basis {
    pub rule: u8,
    pub i: u8,
    // 0 for one gear
    pub j: u8,
    // hundredths
    pub k: u8,
    pub w: Tenths,
    pub c: Tenths,
    // a'
    pub a: Hundredths,
}

// The level between L(i) and L(j) at k hundredths, as a sum of two parts of which none is below 0.
#[tactic(auto, using(crate::proofs::Weights::weighed_sum, crate::proofs::Weights::weighed_most))]
pub fn weighed(k: u8, i: Tenths, j: Tenths) -> Tenths
    requires { k ≤ 100 }
    ensures { result.0 ≡ weighed_level k i.0 j.0 }
{
    let part = k as u32;
    let total = (100 - part) * (j.0 as u32) + part * (i.0 as u32);
    Tenths(units::round(total, 100) as u16)
}

// The basis of a pair: k, and with it the weighed levels.
#[tactic(auto, using(gears::proofs::Accelerations::k_most), unfolding(crate::specs::Urban::basis_of))]
fn pair_basis(reference: Reference, rule: u8, i: ChosenGear, j: ChosenGear) -> Basis
    requires { Straddled reference (Pair rule i j) }
    ensures { result ≡ basis_of reference (Pair rule i j) }
{
    let a = reference.a_ref;
    let k = gears::k(a, i.gear.acceleration, j.gear.acceleration);
    let w_i = window::condition_level(i.acceleration_window);
    let w_j = window::condition_level(j.acceleration_window);
    let c_i = window::condition_level(i.constant_window);
    let c_j = window::condition_level(j.constant_window);
    let w = weighed(k, w_i, w_j);
    let c = weighed(k, c_i, c_j);
    Basis {
        rule,
        i: i.gear.number,
        j: j.gear.number,
        k,
        w,
        c,
        a,
    }
}

// W, C and a' of what was chosen.
#[tactic(auto, unfolding(crate::specs::Urban::basis_of))]
pub fn basis_of(reference: Reference, chosen: Chosen) -> Basis
    requires { Straddled reference chosen }
    ensures { result ≡ basis_of reference chosen }
{
    match chosen {
        Chosen::One(rule, g) => Basis {
            rule,
            i: g.gear.number,
            j: 0,
            k: 100,
            w: window::condition_level(g.acceleration_window),
            c: window::condition_level(g.constant_window),
            a: g.gear.acceleration,
        },
        Chosen::Pair(rule, i, j) => pair_basis(reference, rule, i, j),
    }
}

// L_urban in whole dB(A), and the kp it was reckoned with, in hundredths.
#[derive(Clone, Copy)]
pub struct LUrban {
    pub kp: u8,
    pub level: u16,
}

// kp from the two accelerations, in hundredths. Where they are equal it is 0 and nothing is divided.
#[tactic(auto, using(crate::proofs::PartPower::kp_none, crate::proofs::PartPower::kp_some, crate::proofs::PartPower::kp_most))]
fn part_power(a_urban: Hundredths, a: Hundredths) -> u8
    ensures { result ≡ part_power a_urban.0 a.0 }
{
    if a <= a_urban {
        return 0;
    }
    let more = (a.0 - a_urban.0) as u32;
    units::round(100 * more, a.0 as u32) as u8
}

// L_urban and kp from W, C and a'.
#[tactic(auto, using(units::proofs::Rounding::rounded_within, crate::proofs::PartPower::off_most), unfolding(crate::specs::Urban::l_urban_of))]
pub fn l_urban(reference: Reference, a: Hundredths, w: Tenths, c: Tenths) -> LUrban
    ensures { result ≡ l_urban_of reference a.0 w.0 c.0 }
{
    if reference.pmr < 250 {
        return LUrban {
            kp: 0,
            level: units::whole_decibels(w),
        };
    }
    if w < c {
        return LUrban {
            kp: 100,
            level: units::whole_decibels(c),
        };
    }
    let kp = part_power(reference.a_urban, a);
    let off = (kp as u32) * ((w.0 - c.0) as u32);
    LUrban {
        kp,
        level: units::round(100 * (w.0 as u32) - off, 1000) as u16,
    }
}

// The fields of the result record, in its order.
#[derive(Clone, Copy)]
pub struct Outcome {
    pub rule: u8,
    pub i: u8,
    pub j: u8,
    pub k: u8,
    pub kp: u8,
    pub pass: bool,
    pub w: Tenths,
    pub c: Tenths,
    pub l_urban: u16,
    pub a_urban: Hundredths,
    pub a_ref: Hundredths,
    pub pmr: u16,
    // a'
    pub a: Hundredths,
}

// The result, against a limit in whole dB(A).
#[tactic(auto, unfolding(crate::specs::Urban::outcome_of))]
pub fn outcome_of(reference: Reference, limit: u16, basis: Basis) -> Outcome
    ensures { result ≡ outcome_of reference limit basis }
{
    let l = l_urban(reference, basis.a, basis.w, basis.c);
    Outcome {
        rule: basis.rule,
        i: basis.i,
        j: basis.j,
        k: basis.k,
        kp: l.kp,
        pass: l.level <= limit,
        w: basis.w,
        c: basis.c,
        l_urban: l.level,
        a_urban: reference.a_urban,
        a_ref: reference.a_ref,
        pmr: reference.pmr,
        a: basis.a,
    }
}
