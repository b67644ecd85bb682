// Production checks (document 02, wish 11; document 001, annex 7, 3): cars of a type come one at a time, each as its L_urban, until it is
// known whether the type conforms.
#![tactic(auto)]

ghost use Rattle.std.specs.Prelude.{◌≡◌};
ghost use Rattle.production.specs.Annex.{meets, number_of, place_of};
ghost use Rattle.production.specs.Stages.{status_at, wanted_at, reply_at, next_stage, start_of, offer_of};
ghost use Rattle.production.specs.Sequences.{StatusByAnnex, WantedByAnnex, OfferByAnnex, KeptIfRefused};
ghost use Rattle.production.specs.Numbers.{status_number, stage_number, stage_of, restored_of};

use refusal::Numbered;

// What the cars counted so far have given.
#[derive(Clone, Copy, Debug, PartialEq, Eq)]
pub enum Stage {
    // no car
    NoCar,
    // the first met the requirement
    FirstMet,
    // the first failed it
    FirstFailed,
    // the first failed it, the second met it
    SecondMet,
    // the first and the second failed it
    SecondFailed,
    // the first failed it, the second and the third met it
    BothMet,
    // the first failed it, and so did the second or the third
    NotBothMet,
}

// A check under way or at its end. The limit is in whole dB(A), without the 1 dB that the requirement adds.
#[derive(Clone, Copy, Debug, PartialEq, Eq)]
pub struct Check {
    pub limit: u16,
    pub stage: Stage,
}

// What is known of the type.
#[derive(Clone, Copy, Debug, PartialEq, Eq)]
pub enum Status {
    Open,
    Conforms,
    DoesNotConform,
}

// 20: a car offered after the verdict, which is not counted.
#[derive(Clone, Copy, Debug, PartialEq, Eq)]
pub struct AfterVerdict {
    // the number of cars counted before it
    pub counted: u8,
}

// What an offered car gives: the check from then on, and the reply.
#[derive(Clone, Copy, Debug, PartialEq, Eq)]
pub struct Offered {
    pub check: Check,
    pub reply: Result<(), AfterVerdict>,
}

// Whether an L_urban meets the requirement. The sum is made at 32 bits, since 65,535 + 1 does not fit into 16.
#[tactic(auto, unfolding(crate::specs::Annex::meets))]
fn meets(limit: u16, l_urban: u16) -> bool
    ensures { result ≡ meets limit l_urban }
{
    l_urban as u32 <= limit as u32 + 1
}

// The stage that the next car leads to, by whether it met the requirement. None leads away from a verdict.
fn next_stage(stage: Stage, met: bool) -> Stage
    ensures { result ≡ next_stage stage met }
{
    match stage {
        Stage::NoCar => {
            if met {
                Stage::FirstMet
            } else {
                Stage::FirstFailed
            }
        }
        Stage::FirstMet => Stage::FirstMet,
        Stage::FirstFailed => {
            if met {
                Stage::SecondMet
            } else {
                Stage::SecondFailed
            }
        }
        Stage::SecondMet => {
            if met {
                Stage::BothMet
            } else {
                Stage::NotBothMet
            }
        }
        Stage::SecondFailed => Stage::NotBothMet,
        Stage::BothMet => Stage::BothMet,
        Stage::NotBothMet => Stage::NotBothMet,
    }
}

// What is known of the type at a stage.
fn status_at(stage: Stage) -> Status
    ensures { result ≡ status_at stage }
{
    match stage {
        Stage::NoCar => Status::Open,
        Stage::FirstMet => Status::Conforms,
        Stage::FirstFailed => Status::Open,
        Stage::SecondMet => Status::Open,
        Stage::SecondFailed => Status::Open,
        Stage::BothMet => Status::Conforms,
        Stage::NotBothMet => Status::DoesNotConform,
    }
}

// How many cars are still wanted at a stage.
fn wanted_at(stage: Stage) -> u8
    ensures { result ≡ wanted_at stage }
{
    match stage {
        Stage::NoCar => 1,
        Stage::FirstMet => 0,
        Stage::FirstFailed => 2,
        Stage::SecondMet => 1,
        Stage::SecondFailed => 1,
        Stage::BothMet => 0,
        Stage::NotBothMet => 0,
    }
}

// The reply to the next car.
fn reply_at(stage: Stage) -> Result<(), AfterVerdict>
    ensures { result ≡ reply_at stage }
{
    match stage {
        Stage::NoCar => Ok(()),
        Stage::FirstMet => Err(AfterVerdict { counted: 1 }),
        Stage::FirstFailed => Ok(()),
        Stage::SecondMet => Ok(()),
        Stage::SecondFailed => Ok(()),
        Stage::BothMet => Err(AfterVerdict { counted: 3 }),
        Stage::NotBothMet => Err(AfterVerdict { counted: 3 }),
    }
}

impl Check {
    // A check before its first car, against any limit.
    pub fn start(limit: u16) -> Check
        ensures { result ≡ start_of limit }
    {
        Check {
            limit,
            stage: Stage::NoCar,
        }
    }

    // Offers a car by its L_urban, any number.
    #[tactic(auto, unfolding(crate::specs::Stages::offer_of))]
    pub fn offer(self, l_urban: u16) -> Offered
        ensures stage { result ≡ offer_of self l_urban }
        ensures annex { OfferByAnnex self l_urban result }
        ensures refused { KeptIfRefused self result }
    {
        let limit = self.limit;
        let next = next_stage(self.stage, meets(limit, l_urban));
        let check = Check { limit, stage: next };
        let reply = reply_at(self.stage);
        Offered { check, reply }
    }

    // What is known of the type after the cars so far.
    #[tactic(auto, using(crate::proofs::Sequences::status_by_annex))]
    pub fn status(self) -> Status
        ensures stage { result ≡ status_at self.stage }
        ensures annex { StatusByAnnex self result }
    {
        status_at(self.stage)
    }

    // The number of cars still wanted.
    #[tactic(auto, using(crate::proofs::Sequences::wanted_by_annex))]
    pub fn wanted(self) -> u8
        ensures stage { result ≡ wanted_at self.stage }
        ensures annex { WantedByAnnex self result }
    {
        wanted_at(self.stage)
    }

    // The check with a limit and the number of a stage; none if no stage has this number.
    #[tactic(auto, unfolding(crate::specs::Numbers::stage_of, crate::specs::Numbers::restored_of))]
    pub fn restore(limit: u16, stage: u16) -> Option<Check>
        ensures { result ≡ restored_of limit stage }
    {
        let stage = Stage::try_from(stage).ok()?;
        Some(Check { limit, stage })
    }
}

impl Numbered for AfterVerdict {
    ghost number = { number_of };

    ghost place = { place_of };

    // 20
    fn number(self) -> u8 {
        20
    }

    // The number of cars counted.
    fn place(self) -> usize {
        self.counted as usize
    }
}

// The number of a status, for C and Rust.
impl From<Status> for u8 {
    ghost from_gives = { λ status number. number ≡ status_number status };

    fn from(status: Status) -> u8 {
        match status {
            Status::Open => 0,
            Status::Conforms => 1,
            Status::DoesNotConform => 2,
        }
    }
}

// The number of a stage, for C and Rust.
impl From<Stage> for u16 {
    ghost from_gives = { λ stage number. number ≡ stage_number stage };

    fn from(stage: Stage) -> u16 {
        match stage {
            Stage::NoCar => 0,
            Stage::FirstMet => 1,
            Stage::FirstFailed => 2,
            Stage::SecondMet => 3,
            Stage::SecondFailed => 4,
            Stage::BothMet => 5,
            Stage::NotBothMet => 6,
        }
    }
}

// A number that no stage has.
#[derive(Clone, Copy, Debug, PartialEq, Eq)]
pub struct NoSuchStage;

impl TryFrom<u16> for Stage {
    type Error = NoSuchStage;

    ghost try_from_gives = { λ number stage. stage ≡ stage_of number };

    #[tactic(auto, unfolding(crate::specs::Numbers::stage_of))]
    fn try_from(number: u16) -> Result<Stage, NoSuchStage> {
        match number {
            0 => Ok(Stage::NoCar),
            1 => Ok(Stage::FirstMet),
            2 => Ok(Stage::FirstFailed),
            3 => Ok(Stage::SecondMet),
            4 => Ok(Stage::SecondFailed),
            5 => Ok(Stage::BothMet),
            6 => Ok(Stage::NotBothMet),
            _ => Err(NoSuchStage),
        }
    }
}
