// The jobs of standard input, one behind the other.

ghost use Rattle.std.specs.Prelude.{List, ℕ, ◌<◌, IfOk, length};
ghost use Rattle.model.specs.declared.Lent.{Lent};
ghost use Rattle.stream.specs.Jobs.{lent_in};
ghost use Rattle.stream.specs.AtHand.{NextJob};
ghost use Rattle.season.specs.Window.{at_hand, WindowIn};
ghost use Rattle.season.specs.Jobs.{ValidState, StepOf, ReportOf, KnownReport, SeasonTables};

use crate::window::{ReadFailed, Window};
use model::{Refusal, Totals};
use std::io::Read;
use stream::next::{Next, next_job};
use stream::totals::no_jobs;
use tape_records::state::ParserState;

// The bytes at hand, what has been read of the job at their front and where its next record begins,
// and the totals of the jobs before it.
#[derive(Clone, Copy, Debug, PartialEq, Eq)]
pub struct State {
    pub window: Window,
    pub at: usize,
    pub parser: ParserState,
    pub totals: Totals,
}

// How a season ended: its totals, whether a job was refused, and whether the input has ended.
#[derive(Clone, Copy, Debug, PartialEq, Eq)]
pub struct Ended {
    pub totals: Totals,
    pub ending: Result<(), Refusal>,
    pub ended: bool,
}

// One step: on to the next state, more bytes for the job, of which so much has been read, or the
// season's end.
#[derive(Clone, Copy, Debug, PartialEq, Eq)]
pub enum Step {
    Continue(State),
    Read(ParserState, usize),
    Stop(Ended),
}

impl State {
    // The step that follows, once what the bytes at hand come to is known. The last of 65,535 jobs ends the
    // season.
    fn step_on(self, n: Result<Next, Refusal>) -> Step
        requires { (lent : Lent) × (buffer : List ℕ) × WindowIn buffer self.window × NextJob (at_hand buffer self.window) self.window.ended lent self.totals n }
        ensures { (lent : Lent) (buffer : List ℕ) → WindowIn buffer self.window → self.totals.jobs < 65535 → NextJob (at_hand buffer self.window) self.window.ended lent self.totals n → StepOf lent buffer self.window self.totals result }
    {
        let ended = self.window.ended;
        match n {
            Err(refusal) => Step::Stop(Ended {
                totals: self.totals,
                ending: Err(refusal),
                ended,
            }),
            Ok(Next::Over) => Step::Stop(Ended {
                totals: self.totals,
                ending: Ok(()),
                ended,
            }),
            Ok(Next::Counted(totals, _)) if totals.jobs == 65535 => Step::Stop(Ended {
                totals,
                ending: Ok(()),
                ended,
            }),
            Ok(Next::Counted(totals, size)) => Step::Continue(State {
                window: Window {
                    start: self.window.start + size,
                    ..self.window
                },
                at: 0,
                parser: ParserState::initial(),
                totals,
            }),
            Ok(Next::More(parser, at)) => Step::Read(parser, at),
        }
    }

    // A job is counted, or more bytes are wanted.
    fn advance(
        self,
        buffer: &[u8],
        samples: &mut [u8],
        weights: &mut [i32],
        flow: &mut [i32],
        image: &mut [i32],
        work: &mut [i32],
    ) -> Step
        requires { ValidState (lent_in (length samples.old) (length weights.old) (length flow.old)) buffer.now self × SeasonTables (length buffer.now) (length samples.old) (length flow.old) (length image.old) (length work.old) }
        ensures { StepOf (lent_in (length samples.old) (length weights.old) (length flow.old)) buffer.now self.window self.totals result }
    {
        let w = self.window;
        let n = next_job(
            &buffer[w.start..w.end],
            w.ended,
            self.at,
            self.parser,
            self.totals,
            samples,
            weights,
            flow,
            image,
            work,
        );
        self.step_on(n)
    }
}

// The jobs of standard input, to its end, a refusal, or the last of 65,535.
pub fn read_season<R: Read>(
    stdin: &mut R,
    buffer: &mut [u8],
    samples: &mut [u8],
    weights: &mut [i32],
    flow: &mut [i32],
    image: &mut [i32],
    work: &mut [i32],
) -> Result<Ended, ReadFailed>
    requires { SeasonTables (length buffer.old) (length samples.old) (length flow.old) (length image.old) (length work.old) }
    ensures report { IfOk result (ReportOf (lent_in (length samples.old) (length weights.old) (length flow.old))) }
    ensures known_report { IfOk result (KnownReport (lent_in (length samples.old) (length weights.old) (length flow.old)) (R.remaining stdin.old)) }
{
    let mut s = State {
        window: Window {
            start: 0,
            end: 0,
            ended: false,
        },
        at: 0,
        parser: ParserState::initial(),
        totals: no_jobs(),
    };
    loop {
        match s.advance(buffer, samples, weights, flow, image, work) {
            Step::Continue(next) => s = next,
            Step::Read(parser, at) => {
                let window = s.window.more_bytes(stdin, buffer)?;
                s = State {
                    window,
                    at,
                    parser,
                    ..s
                };
            }
            Step::Stop(e) => return Ok(e),
        }
    }
}
