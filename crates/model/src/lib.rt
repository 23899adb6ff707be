// Document 01 as definitions (specs/) and their first laws (proofs/). The code here is of the
// types that the definitions and the calls of the crates above share: terms and rounds of a job,
// refusals, what the calls give, a record of the tape, what a reading of a tape is lent, and the
// numbers of a season.

#![tactic(auto)]

ghost use Rattle.std.specs.Prelude.{◌≡◌, false};
ghost use Rattle.model.specs.Rows.{has_row};

// Terms of a job without its rounds: size, weight W in sub-units, and the box in levels.
#[derive(Clone, Copy, Debug, Default, PartialEq, Eq)]
pub struct Terms {
    pub width: u32,
    pub height: u32,
    pub weight: u32,
    pub low: u8,
    pub high: u8,
}

// Rounds of a job: quick rounds, and the allowance of steady rounds.
#[derive(Clone, Copy, Debug, Default, PartialEq, Eq)]
pub struct Rounds {
    pub quick: u32,
    pub allowance: u16,
}

// A number that no row of the table of refusals has.
#[derive(Clone, Copy, Debug, PartialEq, Eq)]
pub struct OtherNumber {
    pub number: u32,
    pub ghost no_row: { has_row number ≡ false },
}

// Why a call, a record of a tape or a program's input is refused. specs/Verdict.antt has document 01's number for each.
// None of the calls gives `Other`: it is there for callers of what counts, prints or hands on an answer, which may come from
// elsewhere.
#[derive(Clone, Copy, Debug, PartialEq, Eq)]
pub enum Reason {
    Size,
    Weight,
    Levels,
    SampleCount,
    FlowCount,
    ImageCount,
    WorkCount,
    BeyondWeight,
    OutsideBox,
    QuickRounds,
    UnknownKind,
    CutRecord,
    OutOfOrder,
    TrailingByte,
    ShortBuffer,
    LongInput,
    MissingRecord,
    WeightCount,
    Other(OtherNumber),
}

impl Reason {
    ghost use Rattle.model.specs.Verdict.{number_of};
    ghost use Rattle.model.specs.Tape.{too_short};

    // Document 01's number.
    pub fn number(self) -> u32
        ensures { result ≡ number_of self }
    {
        match self {
            Reason::Size => 1,
            Reason::Weight => 2,
            Reason::Levels => 3,
            Reason::SampleCount => 4,
            Reason::FlowCount => 5,
            Reason::ImageCount => 6,
            Reason::WorkCount => 7,
            Reason::BeyondWeight => 8,
            Reason::OutsideBox => 9,
            Reason::QuickRounds => 10,
            Reason::UnknownKind => 12,
            Reason::CutRecord => 13,
            Reason::OutOfOrder => 14,
            Reason::TrailingByte => 15,
            Reason::ShortBuffer => 16,
            Reason::LongInput => 17,
            Reason::MissingRecord => 18,
            Reason::WeightCount => 19,
            Reason::Other(other) => other.number,
        }
    }

    // The reason that has a number: `Other` where no row has it.
    pub fn of_number(number: u32) -> Reason
        ensures { number_of result ≡ number }
    {
        match number {
            1 => Reason::Size,
            2 => Reason::Weight,
            3 => Reason::Levels,
            4 => Reason::SampleCount,
            5 => Reason::FlowCount,
            6 => Reason::ImageCount,
            7 => Reason::WorkCount,
            8 => Reason::BeyondWeight,
            9 => Reason::OutsideBox,
            10 => Reason::QuickRounds,
            12 => Reason::UnknownKind,
            13 => Reason::CutRecord,
            14 => Reason::OutOfOrder,
            15 => Reason::TrailingByte,
            16 => Reason::ShortBuffer,
            17 => Reason::LongInput,
            18 => Reason::MissingRecord,
            19 => Reason::WeightCount,
            _ => Reason::Other(OtherNumber { number }),
        }
    }

    // Whether it says that the input ends too early.
    pub fn is_too_short(self) -> bool
        ensures { result ≡ too_short (number_of self) }
    {
        matches!(self, Reason::CutRecord | Reason::MissingRecord)
    }
}

// A refusal: its reason and its place.
#[derive(Clone, Copy, Debug, PartialEq, Eq)]
pub struct Refusal {
    pub reason: Reason,
    pub place: usize,
}

// The figures of an image and its flow: the price, the floor and the slack between them.
#[derive(Clone, Copy, Debug, Default, PartialEq, Eq)]
pub struct Figures {
    pub price: u64,
    pub floor: i64,
    pub slack: u64,
}

// How an accepted check, price or run ended. specs/Answers.antt has document 01's values for each case.
#[derive(Clone, Copy, Debug, PartialEq, Eq)]
pub enum Ending {
    Checked { figures: Figures },
    Settled { moved: u32, figures: Figures },
    Spent { moved: u32, figures: Figures },
}

// What read takes from a tape: the job's terms and rounds, and whether weights and whether a flow were there (no, where
// there are no pairs).
#[derive(Clone, Copy, Debug, Default, PartialEq, Eq)]
pub struct Job {
    pub terms: Terms,
    pub rounds: Rounds,
    pub weighted: bool,
    pub flowed: bool,
}

// A record of the job tape: its kind with its numbers.
#[derive(Clone, Copy, Debug, PartialEq, Eq)]
pub enum Entry {
    End,
    Size { width: u32, height: u32 },
    WeightBox { weight: u32, low: u8, high: u8 },
    RoundLimits { quick: u32, allowance: u16 },
    Sample { code: u8 },
    Flow { value: i32 },
    PairWeight { weight: u32 },
}

// What a reading of a tape is lent and allowed: the lengths of the sample, the weight and the flow
// buffer, and whether the end record may be followed by more bytes.
#[derive(Clone, Copy, Debug, PartialEq, Eq)]
pub struct Lent {
    pub samples: usize,
    pub weights: usize,
    pub flow: usize,
    pub followed: bool,
}

// The numbers of a season: jobs, their pixels, how many ended in each way, the sum of their slacks,
// the largest slack, and the first job that has it, counted from 1.
#[derive(Clone, Copy, Debug, Default, PartialEq, Eq)]
pub struct Totals {
    pub jobs: u32,
    pub pixels: u64,
    pub settled: u32,
    pub spent: u32,
    pub checked: u32,
    pub total: u64,
    pub largest: u64,
    pub first: u32,
}
