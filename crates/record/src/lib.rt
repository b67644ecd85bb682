// Records of 32 bytes (document 01, "The sheet"): how one is shown, its fields, and the layout of the vehicle, run and closing record. Which
// record stands where in a sheet is not known here.
#![tactic(auto)]

ghost use Rattle.std.specs.Prelude.{◌≡◌, false, not, ◌||◌, ◌+◌, ◌-◌, ◌≤◌, ◌<◌, length, leb, eqb};
ghost use Rattle.std.specs.Float.{binary32};
ghost use Rattle.std.specs.Float.Ieee.{nan_bits};
ghost use Rattle.units.specs.Bytes.{number};
ghost use Rattle.level.specs.Reading.{reading_of};
ghost use Rattle.record.specs.Records.{record_at, byte, word, within, zeros, backgrounds_in, category_of, start_line_of, vehicle_good, vehicle_in, path_of, kind_byte, kind_of, run_in, reading_from, readable, run_good, closing_good, closing_in};

use level::Reading;
use units::Tenths;

// A record: the constants that belong to it, and how one is shown.
#[derive(Clone, Copy)]
pub struct Record;

impl Record {
    // Its size in bytes.
    pub const SIZE: usize = 32;
    // How many records a sheet can have.
    pub const LIMIT: usize = 1024;
    // Its kinds: byte 0.
    pub const VEHICLE: u8 = 1;

    pub const ACCELERATION: u8 = 2;

    pub const CONSTANT_SPEED: u8 = 3;

    pub const CLOSING: u8 = 9;

    // Record `number` of any byte string, from 0: its bytes as they stand there, or an empty part if there is no such whole record.
    #[tactic(auto, using(crate::proofs::Shown::shown, crate::proofs::Shown::none), unfolding(crate::specs::Records::records))]
    pub fn at(sheet: &[u8], number: usize) -> &[u8]
        ensures { result.now ≡ record_at sheet.now number }
    {
        if number < sheet.len() / Record::SIZE {
            let start = Record::SIZE * number;
            let end = start + Record::SIZE;
            &sheet[start..end]
        } else {
            &sheet[..0]
        }
    }
}

// ---- fields

// Whether a byte is from `low` to `high`.
fn byte_within(r: &[u8], at: usize, low: u8, high: u8) -> bool
    requires { at < length r.now }
    ensures { result ≡ within low high (byte r.now at) }
{
    let b = r[at];
    (low <= b) & (b <= high)
}

// Whether a 16-bit number is from `low` to `high`.
fn word_within(r: &[u8], at: usize, low: u16, high: u16) -> bool
    requires { at + 2 ≤ length r.now }
    ensures { result ≡ within low high (word r.now at) }
{
    let w = units::number16(r, at);
    (low <= w) & (w <= high)
}

// Whether the bytes from `at` to before `end` are zero. All are read, so that the loop has no branch in it.
fn blank(r: &[u8], at: usize, end: usize) -> bool
    requires { (at ≤ end) × (end ≤ length r.now) }
    ensures { result ≡ zeros r.now at (end - at) }
{
    r[at..end].iter().fold(true, |ok, &b| ok & (b == 0))
}

// ---- the backgrounds of a record

// The background at each microphone.
#[derive(Clone, Copy)]
pub struct Backgrounds {
    pub left: Tenths,
    pub right: Tenths,
}

// The backgrounds of the fields at `left` and `right`; zero on the right stands for the left's.
#[tactic(auto, unfolding(crate::specs::Records::backgrounds_in))]
fn backgrounds_in(r: &[u8], left: usize, right: usize) -> Backgrounds
    requires { (left + 2 ≤ length r.now) × (right + 2 ≤ length r.now) }
    ensures { result ≡ backgrounds_in r.now left right }
{
    let l = units::number16(r, left);
    let w = units::number16(r, right);
    let own = if w == 0 { l } else { w };
    Backgrounds {
        left: Tenths(l),
        right: Tenths(own),
    }
}

// ---- the vehicle record

// The category of the vehicle. A good record has M1 or N1.
#[derive(Clone, Copy, Debug, PartialEq, Eq)]
pub enum Category {
    M1,
    N1,
    // another byte
    Other(u8),
}

impl From<u8> for Category {
    ghost from_gives = { λ byte category. category ≡ category_of byte };

    fn from(byte: u8) -> Category {
        match byte {
            1 => Category::M1,
            2 => Category::N1,
            _ => Category::Other(byte),
        }
    }
}

// The line where the acceleration starts. A good record has AA' or PP'.
#[derive(Clone, Copy, Debug, PartialEq, Eq)]
pub enum StartLine {
    // AA'
    Aa,
    // PP'
    Pp,
    // another byte
    Other(u8),
}

impl From<u8> for StartLine {
    ghost from_gives = { λ byte line. line ≡ start_line_of byte };

    fn from(byte: u8) -> StartLine {
        match byte {
            0 => StartLine::Aa,
            1 => StartLine::Pp,
            _ => StartLine::Other(byte),
        }
    }
}

#[derive(Clone, Copy)]
pub struct Vehicle {
    pub category: Category,
    pub start_line: StartLine,
    // tenths of kW
    pub power: u16,
    // kg, in running order
    pub mass: u16,
    // cm
    pub length: u16,
    // S, per minute
    pub rated_speed: u16,
    // before the runs
    pub backgrounds: Backgrounds,
    // whole dB(A); 0 if it is looked up by PMR and the two fields that follow
    pub limit: u16,
    // 1 to 3 where the limit is looked up
    pub phase: u8,
    // there, 1 for a low car with at most four seats, else 0
    pub low_car: u8,
}

#[tactic(auto, unfolding(crate::specs::Records::vehicle_good, crate::specs::Records::vehicle_tests))]
pub fn vehicle_good(r: &[u8]) -> bool
    ensures { result ≡ vehicle_good r.now }
{
    if r.len() != Record::SIZE {
        return false;
    }
    let looked_up = units::number16(r, 14) == 0;
    (r[0] == Record::VEHICLE)
        & byte_within(r, 1, 1, 2)
        & byte_within(r, 2, 0, 1)
        & blank(r, 3, 4)
        & word_within(r, 4, 10, 20000)
        & word_within(r, 6, 300, 5000)
        & word_within(r, 8, 100, 2000)
        & word_within(r, 10, 500, 20000)
        & word_within(r, 12, 0, 1000)
        & (looked_up | word_within(r, 14, 50, 100))
        & (looked_up | blank(r, 16, 18))
        & word_within(r, 18, 0, 1000)
        & blank(r, 20, 32)
}

#[tactic(auto, unfolding(crate::specs::Records::vehicle_in))]
pub fn vehicle_in(r: &[u8]) -> Vehicle
    requires { length r.now ≡ 32 }
    ensures { result ≡ vehicle_in r.now }
{
    Vehicle {
        category: Category::from(r[1]),
        start_line: StartLine::from(r[2]),
        power: units::number16(r, 4),
        mass: units::number16(r, 6),
        length: units::number16(r, 8),
        rated_speed: units::number16(r, 10),
        backgrounds: backgrounds_in(r, 12, 18),
        limit: units::number16(r, 14),
        phase: r[16],
        low_car: r[17],
    }
}

// c + length in cm.
pub fn path_of(v: Vehicle) -> u16
    requires { v.length ≤ 2000 }
    ensures { result ≡ path_of v }
{
    match v.start_line {
        StartLine::Aa => 2000 + v.length,
        StartLine::Pp | StartLine::Other(_) => 1000 + v.length,
    }
}

// ---- a run record

// The kind of a run. A good record has one of the first two.
#[derive(Clone, Copy, Debug, PartialEq, Eq)]
pub enum RunKind {
    Acceleration,
    ConstantSpeed,
    // another byte
    Other(u8),
}

impl RunKind {
    // Byte 0 of a run record of this kind.
    pub fn byte(self) -> u8
        ensures { result ≡ kind_byte self }
    {
        match self {
            RunKind::Acceleration => Record::ACCELERATION,
            RunKind::ConstantSpeed => Record::CONSTANT_SPEED,
            RunKind::Other(byte) => byte,
        }
    }
}

impl From<u8> for RunKind {
    ghost from_gives = { λ byte kind. kind ≡ kind_of byte };

    fn from(byte: u8) -> RunKind {
        if byte == Record::ACCELERATION {
            RunKind::Acceleration
        } else if byte == Record::CONSTANT_SPEED {
            RunKind::ConstantSpeed
        } else {
            RunKind::Other(byte)
        }
    }
}

// The two levels are the meter's floats as the record holds them, each beside its kind byte; `left_reading` and `right_reading` give the readings.
#[derive(Clone, Copy)]
pub struct Run {
    pub kind: RunKind,
    pub gear: u8,
    pub struck: bool,
    // 1 a level, 2 an overload, 0 absent
    pub left_kind: u8,
    pub right_kind: u8,
    pub left: f32,
    pub right: f32,
    // at the start line, tenths of km/h
    pub start_speed: u16,
    // at BB', tenths of km/h
    pub end_speed: u16,
    // the highest before BB', per minute
    pub engine_speed: u16,
}

// The run of a record that is known to be good.
#[tactic(auto, unfolding(crate::specs::Records::run_in))]
pub fn run_in(r: &[u8]) -> Run
    requires long { length r.now ≡ 32 }
    requires left_number { nan_bits binary32 (number r.now 8 4) ≡ false }
    requires right_number { nan_bits binary32 (number r.now 12 4) ≡ false }
    ensures { result ≡ run_in r.now }
{
    Run {
        kind: RunKind::from(r[0]),
        gear: r[1],
        struck: r[2] == 1,
        left_kind: r[3],
        right_kind: r[4],
        left: f32::from_bits(units::number32(r, 8)),
        right: f32::from_bits(units::number32(r, 12)),
        start_speed: units::number16(r, 16),
        end_speed: units::number16(r, 18),
        engine_speed: units::number16(r, 20),
    }
}

// The reading of a kind byte and a float, in a record that is known to be good: there a kind that is neither 1 nor 2 is 0, absent.
#[tactic(auto, unfolding(crate::specs::Records::reading_from))]
fn reading_from(kind: u8, x: f32) -> Reading
    ensures { result ≡ reading_from kind x }
{
    match kind {
        1 => Reading::Level(x),
        2 => Reading::Overload(x),
        _ => Reading::Absent,
    }
}

impl Run {
    pub fn left_reading(self) -> Reading
        ensures { result ≡ reading_from self.left_kind self.left }
    {
        reading_from(self.left_kind, self.left)
    }

    pub fn right_reading(self) -> Reading
        ensures { result ≡ reading_from self.right_kind self.right }
    {
        reading_from(self.right_kind, self.right)
    }
}

// Whether a kind byte and the four bytes from `at` give a reading.
fn readable_at(kind: u8, r: &[u8], at: usize) -> bool
    requires { at + 4 ≤ length r.now }
    ensures { result ≡ readable (reading_of kind (number r.now at 4)) }
{
    level::reading_at(kind, r, at).is_some()
}

// Whether an acceleration run is at least as fast at BB' as at the start line.
fn not_slower(r: &[u8]) -> bool
    requires { length r.now ≡ 32 }
    ensures { result ≡ (not (eqb (byte r.now 0) 2) || leb (word r.now 16) (word r.now 18)) }
{
    let start = units::number16(r, 16);
    let end = units::number16(r, 18);
    (r[0] != Record::ACCELERATION) | (start <= end)
}

#[tactic(auto, unfolding(crate::specs::Records::run_good, crate::specs::Records::run_tests))]
pub fn run_good(r: &[u8]) -> bool
    ensures { result ≡ run_good r.now }
{
    if r.len() != Record::SIZE {
        return false;
    }
    byte_within(r, 0, Record::ACCELERATION, Record::CONSTANT_SPEED)
        & byte_within(r, 1, 1, 16)
        & byte_within(r, 2, 0, 1)
        & readable_at(r[3], r, 8)
        & readable_at(r[4], r, 12)
        & blank(r, 5, 8)
        & word_within(r, 16, 10, 1500)
        & word_within(r, 18, 10, 1500)
        & word_within(r, 20, 0, 20000)
        & not_slower(r)
        & blank(r, 22, 32)
}

// ---- the closing record

#[derive(Clone, Copy)]
pub struct Closing {
    // the number of run records
    pub runs: u16,
    // after the runs
    pub backgrounds: Backgrounds,
}

#[tactic(auto, unfolding(crate::specs::Records::closing_good, crate::specs::Records::closing_tests))]
pub fn closing_good(r: &[u8]) -> bool
    ensures { result ≡ closing_good r.now }
{
    if r.len() != Record::SIZE {
        return false;
    }
    (r[0] == Record::CLOSING)
        & blank(r, 1, 2)
        & word_within(r, 4, 0, 1000)
        & word_within(r, 6, 0, 1000)
        & blank(r, 8, 32)
}

#[tactic(auto, unfolding(crate::specs::Records::closing_in))]
pub fn closing_in(r: &[u8]) -> Closing
    requires { length r.now ≡ 32 }
    ensures { result ≡ closing_in r.now }
{
    Closing {
        runs: units::number16(r, 2),
        backgrounds: backgrounds_in(r, 4, 6),
    }
}
