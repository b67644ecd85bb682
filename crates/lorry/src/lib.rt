// The test mass of lorries, categories N2 and N3 (document 02, wish 13; document 004, annex 3, 2.2.1 and 2.2.7.4): the mass, the load that brings a
// lorry to it, and the band about it. Nothing is rounded.
#![tactic(auto)]

ghost use Rattle.std.specs.Prelude.{◌≡◌, ◌+◌, ◌≤◌};
ghost use Rattle.lorry.specs.TestMass.{kg, driver, target_of, unladen_of, permitted_of, overloaded, is_negative, extra, two_axles_mass, more_axles_mass, masses_of, two_axles_of, more_axles_of, number_of, place_of};

use refusal::Numbered;

// A lorry of two axles, or the stand-in of one of more.
#[derive(Clone, Copy, Debug, PartialEq, Eq)]
pub struct TwoAxles {
    // tenths of kW
    pub power: u16,
    // the unladen loads of the axles, kg
    pub front: u16,
    pub rear: u16,
    // the rear axle's maximum, kg
    pub rear_max: u16,
}

// A mass while it is reckoned, in hundredths of a kg, in which 75% of whole kilograms is whole. The largest, the target of 6,553.5 kW, is
// 32,767,500.
#[derive(Clone, Copy, Debug, PartialEq, Eq, PartialOrd, Ord)]
pub struct KgHundredths(pub u32);

// A mass that is given, in ten-thousandths of a kg, in which 95% and 105% of hundredths are whole.
#[derive(Clone, Copy, Debug, PartialEq, Eq)]
pub struct KgTenThousandths(pub u64);

// What is given: the test mass, the load, and the two ends of the band, 95% and 105% of the test mass.
#[derive(Clone, Copy, Debug, PartialEq, Eq)]
pub struct Masses {
    pub mass: KgTenThousandths,
    pub load: KgTenThousandths,
    pub lowest: KgTenThousandths,
    pub highest: KgTenThousandths,
}

// 21: unladen, the rear axle carries more than 75% of its maximum.
#[derive(Clone, Copy, Debug, PartialEq, Eq)]
pub struct RearOverloaded;

impl Numbered for RearOverloaded {
    ghost number = { number_of };

    ghost place = { place_of };

    // 21
    fn number(self) -> u8 {
        21
    }

    // It names no place.
    fn place(self) -> usize {
        0
    }
}

// 75 kg
const DRIVER: u32 = 7_500;

// Whole kilograms.
fn kg(n: u16) -> KgHundredths
    ensures { result.0 ≡ kg n }
{
    KgHundredths(100 * n as u32)
}

// 50 kg for each kW.
fn target_of(lorry: TwoAxles) -> KgHundredths
    ensures { result.0 ≡ target_of lorry }
{
    KgHundredths(500 * lorry.power as u32)
}

// Both axles, unladen.
fn unladen_of(lorry: TwoAxles) -> KgHundredths
    ensures { result.0 ≡ unladen_of lorry }
{
    KgHundredths(kg(lorry.front).0 + kg(lorry.rear).0)
}

// 75% of the rear axle's maximum.
fn permitted_of(lorry: TwoAxles) -> KgHundredths
    ensures { result.0 ≡ permitted_of lorry }
{
    KgHundredths(75 * lorry.rear_max as u32)
}

// Whether the rear axle, unladen, carries more than that.
fn overloaded(lorry: TwoAxles) -> bool
    ensures { result ≡ overloaded lorry }
{
    permitted_of(lorry) < kg(lorry.rear)
}

// Whether the extra load that brings a lorry to a mass would be negative. The sum is made at 64 bits, since a number of 32 and the driver may not fit
// into 32.
fn is_negative(aim: KgHundredths, unladen: KgHundredths) -> bool
    ensures { result ≡ is_negative aim.0 unladen.0 }
{
    (aim.0 as u64) < DRIVER as u64 + unladen.0 as u64
}

// The extra load, where it is not negative.
fn extra(aim: KgHundredths, unladen: KgHundredths) -> KgHundredths
    requires { driver + unladen.0 ≤ aim.0 }
    ensures { result.0 ≡ extra aim.0 unladen.0 }
{
    KgHundredths(aim.0 - DRIVER - unladen.0)
}

// The test mass of a lorry of two axles. Whether its rear axle is overloaded has been asked before.
#[tactic(auto, unfolding(crate::specs::TestMass::two_axles_mass))]
fn two_axles_mass(lorry: TwoAxles) -> KgHundredths
    ensures { result.0 ≡ two_axles_mass lorry }
{
    let target = target_of(lorry);
    let unladen = unladen_of(lorry);
    if is_negative(target, unladen) {
        return KgHundredths(unladen.0 + DRIVER);
    }
    let permitted = permitted_of(lorry);
    if extra(target, unladen).0 + kg(lorry.rear).0 <= permitted.0 {
        return target;
    }
    KgHundredths(permitted.0 + DRIVER + kg(lorry.front).0)
}

// The test mass of a lorry of more axles: that of its stand-in, unless its own unladen mass with the driver is more.
#[tactic(auto, unfolding(crate::specs::TestMass::more_axles_mass))]
fn more_axles_mass(stand_in: TwoAxles, own: u16) -> KgHundredths
    ensures { result.0 ≡ more_axles_mass stand_in own }
{
    let mass = two_axles_mass(stand_in);
    let unladen = kg(own);
    if is_negative(mass, unladen) {
        return KgHundredths(unladen.0 + DRIVER);
    }
    mass
}

// What is given of a test mass and a load. The products are made at 64 bits, which hold 105 times any number of 32.
fn masses_of(mass: KgHundredths, load: KgHundredths) -> Masses
    ensures { result ≡ masses_of mass.0 load.0 }
{
    Masses {
        mass: KgTenThousandths(100 * mass.0 as u64),
        load: KgTenThousandths(100 * load.0 as u64),
        lowest: KgTenThousandths(95 * mass.0 as u64),
        highest: KgTenThousandths(105 * mass.0 as u64),
    }
}

// The test mass of a lorry of two axles, from any four numbers.
#[tactic(auto, using(crate::proofs::Cases::two_axles_largest, crate::proofs::Refused::fits), unfolding(crate::specs::TestMass::loading_of, crate::specs::TestMass::two_axles_of))]
pub fn two_axles(lorry: TwoAxles) -> Result<Masses, RearOverloaded>
    ensures { result ≡ two_axles_of lorry }
{
    if overloaded(lorry) {
        return Err(RearOverloaded);
    }
    let mass = two_axles_mass(lorry);
    Ok(masses_of(mass, extra(mass, unladen_of(lorry))))
}

// The test mass of a lorry of more axles, from its stand-in and its own unladen mass in kg, any five numbers.
#[tactic(auto, using(crate::proofs::Cases::more_axles_larger), unfolding(crate::specs::TestMass::loading_of, crate::specs::TestMass::more_axles_of))]
pub fn more_axles(stand_in: TwoAxles, own: u16) -> Result<Masses, RearOverloaded>
    ensures { result ≡ more_axles_of stand_in own }
{
    if overloaded(stand_in) {
        return Err(RearOverloaded);
    }
    let mass = more_axles_mass(stand_in, own);
    Ok(masses_of(mass, extra(mass, kg(own))))
}
