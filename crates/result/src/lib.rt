// The result record: its 32 bytes from the fields of an outcome, and the fields read back from it. How the fields come about is not known here.
#![tactic(auto)]

ghost use Rattle.std.specs.Prelude.{◌≡◌, ◌++◌, ◌≤◌, length, drop};
ghost use Rattle.result.specs.Result.{result_bytes, outcome_in};

use units::{Hundredths, Tenths};
use urban::Outcome;

// The 32 bytes of the result record.
#[tactic(auto, unfolding(crate::specs::Result::result_bytes))]
fn result_bytes(o: Outcome) -> [u8; 32]
    ensures { result ≡ result_bytes o }
{
    let w = o.w.0.to_le_bytes();
    let c = o.c.0.to_le_bytes();
    let l_urban = o.l_urban.to_le_bytes();
    let a_urban = o.a_urban.0.to_le_bytes();
    let a_ref = o.a_ref.0.to_le_bytes();
    let pmr = o.pmr.to_le_bytes();
    let a = o.a.0.to_le_bytes();
    [
        o.rule,
        o.i,
        o.j,
        o.k,
        o.kp,
        u8::from(o.pass),
        w[0],
        w[1],
        c[0],
        c[1],
        l_urban[0],
        l_urban[1],
        a_urban[0],
        a_urban[1],
        a_ref[0],
        a_ref[1],
        pmr[0],
        pmr[1],
        a[0],
        a[1],
        0,
        0,
        0,
        0,
        0,
        0,
        0,
        0,
        0,
        0,
        0,
        0,
    ]
}

// The result record at the front of `res`; the bytes after it stay.
pub fn write(outcome: Outcome, res: &mut [u8])
    requires { 32 ≤ length res.old }
    ensures { res.new ≡ result_bytes outcome ++ drop 32 res.old }
{
    res[..32].copy_from_slice(&result_bytes(outcome));
}

// The fields of the result record at the front of `bytes`.
#[tactic(auto, unfolding(crate::specs::Result::outcome_in))]
pub fn read_back(bytes: &[u8]) -> Outcome
    requires { 32 ≤ length bytes.now }
    ensures { result ≡ outcome_in bytes.now }
{
    Outcome {
        rule: bytes[0],
        i: bytes[1],
        j: bytes[2],
        k: bytes[3],
        kp: bytes[4],
        pass: bytes[5] == 1,
        w: Tenths(units::number16(bytes, 6)),
        c: Tenths(units::number16(bytes, 8)),
        l_urban: units::number16(bytes, 10),
        a_urban: Hundredths(units::number16(bytes, 12)),
        a_ref: Hundredths(units::number16(bytes, 14)),
        pmr: units::number16(bytes, 16),
        a: Hundredths(units::number16(bytes, 18)),
    }
}
