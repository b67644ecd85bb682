// A session's gears: from a whole sheet to what becomes of each gear, and the table of those that remain. Which of them are chosen is not decided here.
#![tactic(auto)]

ghost use Rattle.std.specs.Prelude.{◌≡◌, ◌≤◌, ◌<◌, length, get_or};
ghost use Rattle.record.specs.declared.RunKind.TheVariants.{Acceleration};
ghost use Rattle.sheet.specs.Sheet.{RunsGood, any_acceleration, has_acceleration};
ghost use Rattle.window.specs.Windows.{Each, empty_four};
ghost use Rattle.valid_runs.specs.ValidRuns.{NotSlower};
ghost use Rattle.gears.specs.Rules.{gear_at};
ghost use Rattle.session.specs.Session as spec;
ghost use Rattle.session.specs.Session.{session_of, condition_of, window_in, slow_enough, gear_acceleration, by_window, state_of, table_of, entries_in, gears_in, windows_in};

use arrayvec::ArrayVec;
use gears::Gear;
use record::{Backgrounds, RunKind};
use refusal::Shortage;
use sheet::Sheet;
use std::marker::Model;
use units::Hundredths;
use valid_runs::Condition;
use window::{Four, ValidRun};

// What a session is evaluated by, beside its runs.
#[derive(Clone, Copy)]
pub struct Track {
    // of each side the larger of the two, before and after
    pub backgrounds: Backgrounds,
    // S, per minute
    pub rated: u16,
    // c + length, cm
    pub path: u16,
}

impl Track {
    // A gear and a run kind over the track's backgrounds.
    pub fn condition(self, kind: RunKind, gear: u8) -> Condition
        ensures { result ≡ condition_of self kind gear }
    {
        Condition {
            backgrounds: self.backgrounds,
            kind,
            gear,
        }
    }
}

// A gear that remains, with its acceleration window.
#[derive(Clone, Copy, Debug, Default, PartialEq, Eq)]
pub struct Entry {
    pub gear: Gear,
    pub window: Four,
}

// What becomes of a gear.
#[derive(Clone, Copy)]
pub enum State {
    Remains(Entry),
    // an engine speed above S
    Dropped,
    // acceleration runs, and no window among them, and why
    NoWindow(Shortage),
    // no acceleration run
    NoRun,
}

#[tactic(auto, unfolding(crate::specs::Session::slow_enough))]
fn slow_enough(f: Four, rated: u16) -> bool
    ensures { result ≡ slow_enough rated f }
{
    (f.a.engine <= rated) & (f.b.engine <= rated) & (f.c.engine <= rated) & (f.d.engine <= rated)
}

#[tactic(auto, unfolding(crate::specs::Session::gear_acceleration))]
fn acceleration(f: Four, path: u16) -> Hundredths
    requires not_slower { Each NotSlower f }
    requires path_range { (1000 ≤ path) × (path ≤ 4000) }
    ensures { result.0 ≡ gear_acceleration path f }
{
    let of = |run: ValidRun| gears::run_acceleration(run.start, run.end, path);
    gears::mean(of(f.a), of(f.b), of(f.c), of(f.d))
}

// A gear with acceleration runs and no window, and its shortage.
#[derive(Clone, Copy, Debug, PartialEq, Eq)]
pub struct WithoutWindow {
    pub gear: u8,
    pub shortage: Shortage,
}

// The gears that remain, in rising number: the first `count` of the entries. With them the lowest gear with acceleration runs and no window. If
// there is such a gear, the entries are those of the gears below it.
#[derive(Clone, Copy)]
pub struct Table {
    pub entries: [Entry; 16],
    pub count: usize,
    pub without_window: Option<WithoutWindow>,
}

impl Table {
    // Its entries.
    fn stored(&self) -> &[Entry]
        ensures { result.now ≡ entries_in self.now }
    {
        &self.entries[..self.count.min(16)]
    }

    // The gears of the entries, in their order.
    pub fn gears(&self) -> ArrayVec<Gear, 16>
        ensures { result.items ≡ gears_in self.now }
    {
        let mut gears = ArrayVec::new();
        for entry in self.stored() {
            gears.push(entry.gear);
        }
        gears
    }

    // The entry at a place.
    #[tactic(auto, unfolding(gears::specs::Rules::gear_at))]
    pub fn entry(&self, place: usize) -> Entry
        requires { place < length (gears_in self.now) }
        ensures gear { result.gear ≡ gear_at (gears_in self.now) place }
        ensures window { result.window ≡ get_or (windows_in self.now) place empty_four }
    {
        self.stored()[place]
    }
}

// A whole sheet, and what it is evaluated by.
#[derive(Drop)]
pub struct Session<'a> {
    sheet: Sheet<'a>,
    track: Track,
}

impl<'a> Model for Session<'a> {
    ghost Value = { spec.Session };

    ghost view = { λ t. session_of t.sheet t.track };

    ghost invariant = { λ t. RunsGood t.sheet × (1000 ≤ t.track.path) × (t.track.path ≤ 4000) };
}

impl<'a> Session<'a> {
    // The session of a sheet and its track.
    pub fn of(sheet: Sheet<'a>, track: Track) -> Session<'a>
        requires { (1000 ≤ track.path) × (track.path ≤ 4000) }
        ensures { result ≡ session_of sheet.entry track }
    {
        Session { sheet, track }
    }

    // Whether it has an acceleration run.
    pub fn any_acceleration(&self) -> bool
        ensures { result ≡ any_acceleration self.now.sheet }
    {
        self.sheet.any_acceleration()
    }

    // The window of a run kind and a gear.
    pub fn window(&self, kind: RunKind, gear: u8) -> Result<Four, Shortage>
        ensures { result ≡ window_in self.now kind gear }
    {
        valid_runs::window_of(&self.sheet, self.track.condition(kind, gear))
    }

    // A gear with an acceleration run, by its acceleration window.
    #[tactic(auto, using(valid_runs::proofs::Members::window_not_slower), unfolding(crate::specs::Session::by_window))]
    fn by_window(&self, gear: u8) -> State
        ensures { result ≡ by_window self.now.track gear (window_in self.now Acceleration gear) }
    {
        let track = self.track;
        match self.window(RunKind::Acceleration, gear) {
            Ok(window) => {
                if slow_enough(window, track.rated) {
                    let gear = Gear {
                        number: gear,
                        acceleration: acceleration(window, track.path),
                    };
                    State::Remains(Entry { gear, window })
                } else {
                    State::Dropped
                }
            }
            Err(shortage) => State::NoWindow(shortage),
        }
    }

    // The state of a gear; `here` says whether it has an acceleration run.
    #[tactic(auto, unfolding(crate::specs::Session::state_of))]
    fn state_of(&self, gear: u8, here: bool) -> State
        requires { here ≡ has_acceleration self.now.sheet gear }
        ensures { result ≡ state_of self.now gear }
    {
        if here {
            self.by_window(gear)
        } else {
            State::NoRun
        }
    }

    // The gears that remain, and the lowest one without a window.
    #[tactic(auto, using(sheet::proofs::Presence::present_at))]
    pub fn table(&self) -> Table
        ensures { result ≡ table_of self.now }
    {
        let seen = self.sheet.present();
        let mut entries = [Entry::default(); 16];
        let mut count = 0;
        for gear in 1..=16 {
            match self.state_of(gear, seen[gear as usize]) {
                State::Remains(entry) => {
                    entries[count] = entry;
                    count += 1;
                }
                State::NoWindow(shortage) => {
                    return Table {
                        entries,
                        count,
                        without_window: Some(WithoutWindow { gear, shortage }),
                    };
                }
                State::Dropped | State::NoRun => {}
            }
        }
        Table {
            entries,
            count,
            without_window: None,
        }
    }
}
