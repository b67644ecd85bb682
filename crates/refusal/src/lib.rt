// The causes of a refusal with their numbers and places, and those of an answer: what the caller gets of an evaluation.
#![tactic(auto)]

ghost use Rattle.std.specs.Prelude.{◌≡◌, ℕ};
ghost use Rattle.refusal.specs.Refusal.{number_in, number_of, place_of, answer_number, answer_place};

// Why the runs of a gear and a run kind have no window.
#[derive(Clone, Copy, Debug, PartialEq, Eq)]
pub enum Shortage {
    // fewer than four valid runs
    TooFew,
    // four or more, and no four neighbours within 2.0 dB on each side
    TooWide,
}

// The causes of a refusal, in the order in which they are checked.
#[derive(Clone, Copy, Debug, PartialEq, Eq)]
pub enum Refusal {
    // 1: the result buffer has less than 32 bytes
    ShortBuffer,
    // 2: empty, over 32,768 bytes, or not whole records
    WrongSize,
    // 3: byte 0 of the first record is not 1
    NoVehicle,
    // 4: the last record does not close the sheet, or not with its number of runs
    NoClosing(usize),
    // 5: the lowest record that breaks the layout
    BrokenRecord(usize),
    // 11: the limit is 0 and the category N1
    NoLimitForN1,
    // 12: the limit is 0, and the phase is outside 1 to 3 or byte 17 above 1
    NoLimitEntry,
    // 6: PMR under 5.0 or over 600.0
    PmrOutOfRange,
    // 7: no acceleration run
    NoRun,
    // 7 or 14: the lowest gear with an acceleration run and no window, and its shortage
    NoWindow(u8, Shortage),
    // 8: the lower gear of the first neighbours whose accelerations do not fall
    NotFalling(u8),
    // 9: no gear remains, or no rule applies
    NoRule,
    // 10 or 15: the lowest chosen gear without a constant-speed window, and its shortage
    NoConstantSpeed(u8, Shortage),
}

// A refusal with the number that the papers give it, and its place.
pub trait Numbered {
    ghost number: { Self → ℕ };

    ghost place: { Self → ℕ };

    fn number(self) -> u8
        ensures { result ≡ number self };

    fn place(self) -> usize
        ensures { result ≡ place self };
}

impl Numbered for Refusal {
    ghost number = { number_of };

    ghost place = { place_of };

    // Its number.
    fn number(self) -> u8 {
        match self {
            Refusal::ShortBuffer => 1,
            Refusal::WrongSize => 2,
            Refusal::NoVehicle => 3,
            Refusal::NoClosing(_) => 4,
            Refusal::BrokenRecord(_) => 5,
            Refusal::NoLimitForN1 => 11,
            Refusal::NoLimitEntry => 12,
            Refusal::PmrOutOfRange => 6,
            Refusal::NoRun => 7,
            Refusal::NoWindow(_, Shortage::TooFew) => 7,
            Refusal::NoWindow(_, Shortage::TooWide) => 14,
            Refusal::NotFalling(_) => 8,
            Refusal::NoRule => 9,
            Refusal::NoConstantSpeed(_, Shortage::TooFew) => 10,
            Refusal::NoConstantSpeed(_, Shortage::TooWide) => 15,
        }
    }

    // Its place: a record, a gear, or 0.
    fn place(self) -> usize {
        match self {
            Refusal::NoClosing(n) | Refusal::BrokenRecord(n) => n,
            Refusal::NoWindow(g, _) | Refusal::NotFalling(g) | Refusal::NoConstantSpeed(g, _) =>
                g as usize,
            Refusal::ShortBuffer
            | Refusal::WrongSize
            | Refusal::NoVehicle
            | Refusal::NoLimitForN1
            | Refusal::NoLimitEntry
            | Refusal::PmrOutOfRange
            | Refusal::NoRule
            | Refusal::NoRun => 0,
        }
    }
}

// The number of an answer: that of its refusal, and 0 on success.
pub fn answer_number<T: Drop, E: Numbered>(answer: Result<T, E>) -> u8
    ensures { result ≡ number_in E.number answer }
{
    match answer {
        Ok(_) => 0,
        Err(e) => e.number(),
    }
}

// Its place, and 0 on success.
pub fn answer_place<T: Drop, E: Numbered>(answer: Result<T, E>) -> usize
    ensures { result ≡ number_in E.place answer }
{
    match answer {
        Ok(_) => 0,
        Err(e) => e.place(),
    }
}
