// What the program prints for standard input.

ghost use Rattle.std.specs.Prelude.{true, ◌≡◌, IfSome, IfOk, IfErr, length};
ghost use Rattle.std.specs.Counts.{IsPrefixLen};
ghost use Rattle.model.specs.Program.{tables};
ghost use Rattle.season.specs.Jobs.{ReportOf, KnownReport};
ghost use Rattle.lists.specs.Lists.{overwritten};
ghost use Rattle.model.specs.Season.{TextOf, season_text};

use crate::jobs::{Ended, read_season};
use crate::window::ReadFailed;
use std::io::Read;
use text::report::put_report;

// The tables hold 4,096 samples, 8,064 pair weights and 8,064 flow values, whatever the input.
fn read_jobs<R: Read>(stdin: &mut R) -> Result<Ended, ReadFailed>
    ensures report { IfOk result (ReportOf (tables true)) }
    ensures known_report { IfOk result (KnownReport (tables true) (R.remaining stdin.old)) }
{
    // Fixed memory: the program has no heap.
    let mut buffer = [0u8; 262144];
    let mut samples = [0u8; 4096];
    let mut weights = [0i32; 8064];
    let mut flow = [0i32; 8064];
    let mut image = [0i32; 4096];
    let mut work = [0i32; 16128];
    read_season(
        stdin,
        &mut buffer,
        &mut samples,
        &mut weights,
        &mut flow,
        &mut image,
        &mut work,
    )
}

// The text stands at the front of the output, for some input; how many bytes it has. Which input that is,
// and whether a read failed, is free (specs/Season.antt of `model`), but of a reader whose bytes are known it is
// these. Where one failed, the output is as it was.
pub fn season_text<R: Read>(stdin: &mut R, output: &mut [u8; 512]) -> Result<usize, ReadFailed>
    ensures text_of { IfOk result (λ count. TextOf output.old count output.new) }
    ensures known_count { IfOk result (λ count. IfSome (R.remaining stdin.old) (λ input. count ≡ length (season_text input))) }
    ensures known_output { IfOk result (λ _. IfSome (R.remaining stdin.old) (λ input. output.new ≡ overwritten (season_text input) output.old)) }
    ensures prefix_len { IfOk result (λ count. IsPrefixLen count output.new) }
    ensures unchanged { IfErr result (λ _. output.new ≡ output.old) }
{
    let e = read_jobs(stdin)?;
    let count = put_report(output, 0, e.totals, e.ending);
    Ok(count)
}
