// The call that a job asks for: with flow records it is checked, else it is run.

ghost use Rattle.std.specs.Prelude.{◌≡◌, length};
ghost use Rattle.model.specs.Answers.{answer_of};
ghost use Rattle.model.specs.RoundTrip.{all_of};
ghost use Rattle.job.specs.Tables.{Tables, answer_in, image_in};

use calls::check::check;
use calls::run::run;
use model::{Ending, Job, Refusal};

// How many weights of pairs are lent: all or none.
fn weight_count(weighted: bool, pairs: usize) -> usize
    ensures { result ≡ all_of weighted pairs }
{
    if weighted { pairs } else { 0 }
}

// The front of each table is lent to the call, as long as the job needs it. What run leaves in the flow
// and the work table is of no use to the programs.
// The five tables stay parameters, here and in the functions above that hand them on: a struct of lent
// slices asks of each function that takes it a clause for every table, that it is the same one and as long,
// which a lent slice alone has without a clause.
pub fn check_or_run(
    job: Job,
    samples: &[u8],
    weights: &[i32],
    flow: &mut [i32],
    image: &mut [i32],
    work: &mut [i32],
) -> Result<Ending, Refusal>
    requires { Tables job.terms (length samples.now) (length weights.now) (length flow.old) (length image.old) (length work.old) }
    ensures result_value { answer_of result ≡ answer_in job.terms job.rounds job.weighted job.flowed samples.now weights.now flow.old image.old work.old }
    ensures image_after { image.new ≡ image_in job.terms job.rounds job.weighted job.flowed samples.now weights.now flow.old image.old work.old }
{
    let t = job.terms;
    let n = validation::pixels(t.width, t.height);
    let m = validation::pairs(t.width, t.height);
    let codes = &samples[..n];
    let count = weight_count(job.weighted, m);
    let own = &weights[..count];
    if job.flowed {
        check(t, codes, own, &flow[..m], &mut image[..n])
    } else {
        run(
            t,
            job.rounds,
            codes,
            own,
            &mut flow[..m],
            &mut image[..n],
            &mut work[..2 * m],
        )
    }
}
