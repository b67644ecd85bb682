// The two units of an evaluation, the one rounding, and numbers that stand in bytes.
#![tactic(auto)]

ghost use Rattle.std.specs.Prelude.{◌≡◌, ◌+◌, ◌<◌, ◌≤◌, length};
ghost use Rattle.units.specs.Rounding.{rounded};
ghost use Rattle.units.specs.Bytes.{number};

// A sound level, in tenths of dB(A).
#[derive(Clone, Copy, Debug, Default, PartialEq, Eq, PartialOrd, Ord)]
pub struct Tenths(pub u16);

// An acceleration, in hundredths of m/s². A type of its own, so that code for gears cannot be handed a level.
#[derive(Clone, Copy, Debug, Default, PartialEq, Eq, PartialOrd, Ord)]
pub struct Hundredths(pub u16);

// n / d to the nearest whole number, a half going up. Reckoned from the remainder, so that no sum can wrap.
pub fn round(n: u32, d: u32) -> u32
    requires { 0 < d }
    ensures { result ≡ rounded n d }
{
    let whole = n / d;
    let remainder = n % d;
    if remainder < d - remainder {
        whole
    } else {
        whole + 1
    }
}

// A level, or a difference of two, in whole decibels: the nearest, a half going up.
pub fn whole_decibels(level: Tenths) -> u16
    ensures { result ≡ rounded level.0 10 }
{
    round(level.0 as u32, 10) as u16
}

// The 16-bit number at `at`, low byte first.
pub fn number16(s: &[u8], at: usize) -> u16
    requires { at + 2 ≤ length s.now }
    ensures { result ≡ number s.now at 2 }
{
    u16::from_le_bytes([s[at], s[at + 1]])
}

// The 32-bit number at `at`, low byte first.
pub fn number32(s: &[u8], at: usize) -> u32
    requires { at + 4 ≤ length s.now }
    ensures { result ≡ number s.now at 4 }
{
    u32::from_le_bytes([s[at], s[at + 1], s[at + 2], s[at + 3]])
}
