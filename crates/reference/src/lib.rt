// PMR, and the reference accelerations that follow from it.
#![tactic(auto)]

use std::marker::Model;
use units::Hundredths;

mod starts;

ghost use Rattle.std.specs.Prelude.{◌≡◌, ℕ, ◌≤◌, ◌<◌};
ghost use Rattle.reference.specs.Reference.{pmr_of, pmr_in_range, a_urban, a_ref, reference_at};
ghost use Rattle.reference.specs.Place.{StartsRise, Placed};

// What follows from PMR.
#[derive(Clone, Copy)]
pub struct Reference {
    // tenths
    pub pmr: u16,
    pub a_urban: Hundredths,
    pub a_ref: Hundredths,
}

// A PMR that has reference accelerations, in tenths: from 5.0 to 600.0.
#[derive(Clone, Copy)]
pub struct PmrInRange {
    tenths: u16,
}

impl Model for PmrInRange {
    ghost Value = { ℕ };

    ghost view = { λ q. q.tenths };

    ghost invariant = { λ q. (50 ≤ q.tenths) × (q.tenths ≤ 6000) };

    ghost inverse = { λ n. record { tenths = n } };
}

impl PmrInRange {
    // The PMR of a number of tenths that is in range.
    pub fn of(tenths: u16) -> PmrInRange
        requires { (50 ≤ tenths) × (tenths ≤ 6000) }
        ensures { result ≡ tenths }
    {
        PmrInRange { tenths }
    }

    // The PMR of any number of tenths, if it is in range.
    pub fn new(tenths: u32) -> Option<PmrInRange>
        ensures { result ≡ pmr_in_range tenths }
    {
        if (tenths < 50) | (6000 < tenths) {
            return None;
        }
        Some(PmrInRange {
            tenths: tenths as u16,
        })
    }
}

// PMR in tenths, from the power in tenths of kW and the mass in kg.
pub fn pmr(power: u16, mass: u16) -> u32
    requires { 0 < mass }
    ensures { result ≡ pmr_of power mass }
{
    units::round(1000 * (power as u32), mass as u32)
}

// How many starts are not above q: the place of q among them.
fn place(starts: &[u16], q: u16) -> usize
    requires { StartsRise starts.now }
    ensures { Placed starts.now q result }
{
    starts.partition_point(|start| *start <= q)
}

impl PmrInRange {
    // The number of tenths.
    fn tenths(self) -> u16
        ensures value { result ≡ self }
        ensures range { (50 ≤ result) × (result ≤ 6000) }
    {
        self.tenths
    }

    // Its a_urban.
    pub fn a_urban(self) -> Hundredths
        ensures { result.0 ≡ a_urban self }
    {
        let q = self.tenths();
        Hundredths(35 + place(&starts::URBAN, q) as u16)
    }

    // Its a_ref.
    pub fn a_ref(self) -> Hundredths
        ensures { result.0 ≡ a_ref self }
    {
        let q = self.tenths();
        if q < 250 {
            return self.a_urban();
        }
        Hundredths(81 + place(&starts::REF, q) as u16)
    }

    // This PMR with the accelerations that follow from it.
    pub fn reference(self) -> Reference
        ensures { result ≡ reference_at self }
    {
        Reference {
            pmr: self.tenths(),
            a_urban: self.a_urban(),
            a_ref: self.a_ref(),
        }
    }
}
