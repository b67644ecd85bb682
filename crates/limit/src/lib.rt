// The limit of a session (document 02, wish 1): the written one, or that of the table by PMR, phase and byte 17; or refusal 11 or 12.
#![tactic(auto)]

ghost use Rattle.std.specs.Prelude.{◌≡◌, ◌≤◌};
ghost use Rattle.limit.specs.Limits.{class_of, has_entry, table_limit, limit_of};

use record::{Category, Vehicle};
use refusal::Refusal;

// The limits of each class in the phases 1, 2 and 3.
const LIMITS: [u16; 12] = [72, 70, 68, 73, 71, 69, 75, 73, 71, 75, 74, 72];

// The class of a car, by PMR in tenths and byte 17 of its record.
#[tactic(auto, unfolding(crate::specs::Limits::class_of))]
fn class_of(pmr: u32, low_car: u8) -> usize
    ensures { result ≡ class_of pmr low_car }
{
    if pmr <= 1200 {
        return 0;
    }
    if pmr <= 1600 {
        return 1;
    }
    if (2000 < pmr) & (low_car == 1) { 3 } else { 2 }
}

// The table's limit for a PMR in tenths, a phase and byte 17.
#[tactic(auto, using(crate::proofs::Classes::class_most), unfolding(crate::specs::Limits::limit_table, crate::specs::Limits::table_limit))]
fn table_limit(pmr: u32, phase: u8, low_car: u8) -> u16
    requires { (1 ≤ phase) × (phase ≤ 3) }
    ensures { result ≡ table_limit pmr phase low_car }
{
    let class = class_of(pmr, low_car);
    LIMITS[3 * class + (phase - 1) as usize]
}

// Whether the table has an entry for a phase and byte 17.
fn has_entry(phase: u8, low_car: u8) -> bool
    ensures { result ≡ has_entry phase low_car }
{
    (1 <= phase) & (phase <= 3) & (low_car <= 1)
}

// The limit of a vehicle record whose PMR, in tenths, is known: in whole dB(A).
#[tactic(auto, unfolding(crate::specs::Limits::limit_of))]
pub fn limit_of(v: Vehicle, pmr: u32) -> Result<u16, Refusal>
    ensures { result ≡ limit_of v pmr }
{
    if v.limit != 0 {
        return Ok(v.limit);
    }
    match v.category {
        Category::N1 => Err(Refusal::NoLimitForN1),
        _ if !has_entry(v.phase, v.low_car) => Err(Refusal::NoLimitEntry),
        _ => Ok(table_limit(pmr, v.phase, v.low_car)),
    }
}
