// The report of a season.

ghost use Rattle.std.specs.Prelude.{◌++◌, ◌+◌, ◌≤◌, length};
ghost use Rattle.model.specs.Verdict.{Refuse, number_of, verdict_of};
ghost use Rattle.model.specs.Text.{ascii, decimal};
ghost use Rattle.model.specs.Program.{field};
ghost use Rattle.model.specs.Season.{line, mean_line, totals_text, ending_text, report_text};
ghost use Rattle.output.specs.Put.{Put};

use crate::line::put_refusal;
use crate::number::{Decimal, put_field};
use model::{Refusal, Totals};
use output::{put_byte, put_bytes};

// A word and a number.
fn put_line<N: Decimal>(output: &mut [u8], o: usize, word: &[u8], n: N) -> usize
    requires { (length word.now ≤ 7) × (o + (9 + N.room) ≤ length output.old) }
    ensures put { Put o (word.now ++ field (N.text n) ++ ascii "\n") output.old result output.new }
    ensures upper_bound { result ≤ o + (9 + N.room) }
{
    let first = put_bytes(output, o, word);
    let second = put_field(output, first, n);
    put_byte(output, second, b'\n')
}

// A word and two numbers.
fn put_line_of_two<M: Decimal, N: Decimal>(
    output: &mut [u8],
    o: usize,
    word: &[u8],
    m: M,
    n: N,
) -> usize
    requires { (length word.now ≤ 7) × (o + (10 + M.room + N.room) ≤ length output.old) }
    ensures put { Put o (word.now ++ field (M.text m) ++ field (N.text n) ++ ascii "\n") output.old result output.new }
    ensures upper_bound { result ≤ o + (10 + M.room + N.room) }
{
    let first = put_bytes(output, o, word);
    let second = put_field(output, first, m);
    let third = put_field(output, second, n);
    put_byte(output, third, b'\n')
}

// Slack per pixel: the quotient and the remainder; zeros where there is no pixel.
fn put_mean(output: &mut [u8], o: usize, total: u64, pixels: u64) -> usize
    requires { o + 50 ≤ length output.old }
    ensures put { Put o (mean_line total pixels) output.old result output.new }
    ensures upper_bound { result ≤ o + 50 }
{
    let quotient = total.checked_div(pixels).unwrap_or(0);
    let remainder = total.checked_rem(pixels).unwrap_or(0);
    put_line_of_two(output, o, b"mean", quotient, remainder)
}

// How many jobs and pixels.
fn put_size(output: &mut [u8], o: usize, t: Totals) -> usize
    requires { o + 58 ≤ length output.old }
    ensures put { Put o (line "jobs" t.jobs ++ line "pixels" t.pixels) output.old result output.new }
    ensures upper_bound { result ≤ o + 58 }
{
    let next = put_line(output, o, b"jobs", t.jobs);
    put_line(output, next, b"pixels", t.pixels)
}

// With how many jobs ended in each way.
fn put_counts(output: &mut [u8], o: usize, t: Totals) -> usize
    requires { o + 145 ≤ length output.old }
    ensures put { Put o (line "jobs" t.jobs ++ line "pixels" t.pixels ++ line "settled" t.settled ++ line "spent" t.spent ++ line "checked" t.checked) output.old result output.new }
    ensures upper_bound { result ≤ o + 145 }
{
    let first = put_size(output, o, t);
    let second = put_line(output, first, b"settled", t.settled);
    let third = put_line(output, second, b"spent", t.spent);
    put_line(output, third, b"checked", t.checked)
}

// The lines of the totals.
fn put_totals(output: &mut [u8], o: usize, t: Totals) -> usize
    requires { o + 274 ≤ length output.old }
    ensures put { Put o (totals_text t) output.old result output.new }
    ensures upper_bound { result ≤ o + 274 }
{
    let first = put_counts(output, o, t);
    let second = put_line(output, first, b"total", t.total);
    let third = put_line_of_two(output, second, b"largest", t.largest, t.first);
    put_mean(output, third, t.total, t.pixels)
}

// The line of a refused job, behind so many jobs.
fn put_refused(output: &mut [u8], o: usize, jobs: u32, refusal: Refusal) -> usize
    requires { o + 78 ≤ length output.old }
    ensures put { Put o (ending_text jobs (Refuse (number_of refusal.reason) refusal.place)) output.old result output.new }
    ensures upper_bound { result ≤ o + 78 }
{
    let first = put_bytes(output, o, b"job");
    let second = put_field(output, first, jobs as u64 + 1);
    let third = put_byte(output, second, b' ');
    put_refusal(output, third, refusal.reason.number(), refusal.place)
}

pub fn put_report(output: &mut [u8], o: usize, t: Totals, ending: Result<(), Refusal>) -> usize
    requires { o + 352 ≤ length output.old }
    ensures put { Put o (report_text t (verdict_of ending)) output.old result output.new }
    ensures upper_bound { result ≤ o + 352 }
{
    let next = put_totals(output, o, t);
    match ending {
        Ok(()) => next,
        Err(refusal) => put_refused(output, next, t.jobs, refusal),
    }
}
