// A session's sheet: any byte string examined as one (refusals 2 to 5), and the run records of a whole sheet: which gears have acceleration runs.
// No level and no speed is read here.
#![tactic(auto)]

ghost use Rattle.std.specs.Prelude.{◌≡◌, List, ℕ, ◌-◌, ◌≤◌, ◌<◌};
ghost use Rattle.units.specs.Tests.{lowest, below};
ghost use Rattle.record.specs.Records.{records};
ghost use Rattle.sheet.specs.Sheet.{last_of, wrong_size, no_vehicle, no_closing, good_at, lowest_broken, examined, RunsGood, has_byte, any_acceleration, present_of};

use record::{Closing, Record, RunKind, Vehicle};
use refusal::Refusal;
use std::marker::Model;

// What a whole sheet says beside its runs.
#[derive(Clone, Copy)]
pub struct Whole {
    pub vehicle: Vehicle,
    pub closing: Closing,
}

#[tactic(auto, unfolding(crate::specs::Sheet::wrong_size))]
fn wrong_size(sheet: &[u8]) -> bool
    ensures { result ≡ wrong_size sheet.now }
{
    let n = sheet.len();
    (n == 0) | (n > Record::SIZE * Record::LIMIT) | (n % Record::SIZE != 0)
}

#[tactic(auto, using(record::proofs::Shown::record_long), unfolding(crate::specs::Sheet::no_vehicle))]
fn no_vehicle(sheet: &[u8]) -> bool
    requires { 0 < records sheet.now }
    ensures { result ≡ no_vehicle sheet.now }
{
    let first = Record::at(sheet, 0);
    first[0] != Record::VEHICLE
}

// `count` is the number of records.
#[tactic(auto, using(record::proofs::Shown::record_long), unfolding(crate::specs::Sheet::no_closing))]
fn no_closing(sheet: &[u8], count: usize) -> bool
    requires { (0 < count) × (count ≡ records sheet.now) }
    ensures { result ≡ no_closing sheet.now }
{
    let z = Record::at(sheet, count - 1);
    let runs = units::number16(z, 2) as usize;
    (z[0] != Record::CLOSING) | (runs + 2 != count)
}

// Whether record `number` has the layout of its place.
#[tactic(auto, unfolding(crate::specs::Sheet::good_by))]
fn good_at(sheet: &[u8], number: usize, last: usize) -> bool
    requires { last ≡ last_of sheet.now }
    ensures { result ≡ good_at sheet.now number }
{
    let r = Record::at(sheet, number);
    if number == 0 {
        return record::vehicle_good(r);
    }
    if number == last {
        return record::closing_good(r);
    }
    record::run_good(r)
}

// The lowest record that breaks the layout, if any does.
fn lowest_broken(sheet: &[u8], count: usize) -> Option<usize>
    requires { (0 < count) × (count ≡ records sheet.now) }
    ensures { result ≡ below (records sheet.now) (lowest_broken sheet.now) }
{
    let last = count - 1;
    (0..count).find(|i| !good_at(sheet, *i, last))
}

// Any byte string, examined as a sheet: what a whole sheet says, or the first refusal.
#[tactic(auto, using(record::proofs::Shown::record_long, crate::proofs::Examinations::sized), unfolding(record::specs::Records::records, units::specs::Tests::below, crate::specs::Sheet::examined_by))]
pub fn examine(sheet: &[u8]) -> Result<Whole, Refusal>
    ensures { result ≡ examined sheet.now }
{
    if wrong_size(sheet) {
        return Err(Refusal::WrongSize);
    }
    if no_vehicle(sheet) {
        return Err(Refusal::NoVehicle);
    }
    let count = sheet.len() / Record::SIZE;
    if no_closing(sheet, count) {
        return Err(Refusal::NoClosing(count - 1));
    }
    if let Some(broken) = lowest_broken(sheet, count) {
        return Err(Refusal::BrokenRecord(broken));
    }
    Ok(Whole {
        vehicle: record::vehicle_in(Record::at(sheet, 0)),
        closing: record::closing_in(Record::at(sheet, count - 1)),
    })
}

// The first record whose byte `at` is `value`, from record `from` on and before record `last`, if there is one.
pub fn next_with(sheet: &[u8], at: usize, value: u8, from: usize, last: usize) -> Option<usize>
    requires byte_place { at < 32 }
    requires record_range { (from ≤ last) × (last ≤ records sheet.now) }
    ensures { result ≡ below last (lowest (has_byte sheet.now at value) (last - from) from) }
{
    (from..last).find(|n| sheet[Record::SIZE * *n + at] == value)
}

// The bytes of a sheet of 2 to 1,024 records whose run records, all but the first and the last, are good.
#[derive(Drop)]
pub struct Sheet<'a> {
    content: &'a [u8],
}

impl<'a> Model for Sheet<'a> {
    ghost Value = { List ℕ };

    ghost view = { λ s. s.content.now };

    ghost invariant = { λ s. RunsGood s.content.now };
}

impl<'a> Sheet<'a> {
    // The sheet of these bytes.
    pub fn of(bytes: &'a [u8]) -> Sheet<'a>
        requires { RunsGood bytes.now }
        ensures { result ≡ bytes.now }
    {
        Sheet { content: bytes }
    }

    // Its bytes.
    pub fn bytes(&self) -> &'a [u8]
        ensures value { result.now ≡ self.now }
        ensures runs_good { RunsGood result.now }
    {
        self.content
    }

    // Whether it has an acceleration run.
    #[tactic(auto, unfolding(record::specs::Records::records))]
    pub fn any_acceleration(&self) -> bool
        ensures { result ≡ any_acceleration self.now }
    {
        let bytes = self.bytes();
        let last = bytes.len() / Record::SIZE - 1;
        next_with(bytes, 0, RunKind::Acceleration.byte(), 1, last).is_some()
    }

    // Which gears have an acceleration run, each at its number.
    #[tactic(auto, using(record::proofs::Shown::record_long), unfolding(record::specs::Records::records))]
    pub fn present(&self) -> [bool; 17]
        ensures { result ≡ present_of self.now }
    {
        let bytes = self.bytes();
        let last = bytes.len() / Record::SIZE - 1;
        let mut seen = [false; 17];
        for i in 1..last {
            let r = Record::at(bytes, i);
            if r[0] == RunKind::Acceleration.byte() {
                seen[r[1] as usize] = true;
            }
        }
        seen
    }
}
