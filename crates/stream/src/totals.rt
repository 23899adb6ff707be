// The totals of a season, job after job.

ghost use Rattle.std.specs.Prelude.{◌≡◌, [], ◌<◌};
ghost use Rattle.model.specs.Season.{totals_of};
ghost use Rattle.model.specs.Answers.{answer_of};
ghost use Rattle.stream.specs.Totals.{addend_of, peak_of, with_job, Countable};

use model::{Ending, Refusal, Totals};

// What a job adds: 1 for the way it ended, and its slack.
#[derive(Clone, Copy, Default)]
struct Addend {
    settled: u32,
    spent: u32,
    checked: u32,
    slack: u64,
}

// The largest slack, and the first job that has it.
#[derive(Clone, Copy)]
struct Peak {
    largest: u64,
    first: u32,
}

pub fn no_jobs() -> Totals
    ensures { result ≡ totals_of [] }
{
    Totals::default()
}

fn addend_of(answer: Result<Ending, Refusal>) -> Addend
    ensures { result ≡ addend_of (answer_of answer) }
{
    match answer {
        Err(_) => Addend::default(),
        Ok(Ending::Checked { figures }) => Addend {
            checked: 1,
            slack: figures.slack,
            ..Addend::default()
        },
        Ok(Ending::Settled { moved: _, figures }) => Addend {
            settled: 1,
            slack: figures.slack,
            ..Addend::default()
        },
        Ok(Ending::Spent { moved: _, figures }) => Addend {
            spent: 1,
            slack: figures.slack,
            ..Addend::default()
        },
    }
}

// The job behind these takes the peak where its slack is above the largest of theirs.
fn peak_with(t: Totals, slack: u64) -> Peak
    requires { t.jobs < 65535 }
    ensures { result ≡ peak_of t.jobs t.largest t.first slack }
{
    // `|` has no branch, so the proof has one path.
    if (t.jobs == 0) | (t.largest < slack) {
        Peak {
            largest: slack,
            first: t.jobs + 1,
        }
    } else {
        Peak {
            largest: t.largest,
            first: t.first,
        }
    }
}

// The totals with a job more.
pub fn with_job(t: Totals, pixels: usize, answer: Result<Ending, Refusal>) -> Totals
    requires { Countable t (record { pixels = pixels; answer = answer_of answer }) }
    ensures { result ≡ with_job t (record { pixels = pixels; answer = answer_of answer }) }
{
    let s = addend_of(answer);
    let p = peak_with(t, s.slack);
    Totals {
        jobs: t.jobs + 1,
        pixels: t.pixels + pixels as u64,
        settled: t.settled + s.settled,
        spent: t.spent + s.spent,
        checked: t.checked + s.checked,
        total: t.total + s.slack,
        largest: p.largest,
        first: p.first,
    }
}
