// A season's jobs, taken one by one from the bytes at hand, and their totals.
//     totals   the totals with one job more
//     next     what the bytes at hand come to: a job, a refusal, the season's end, or too few bytes

#![tactic(auto)]

pub mod next;
pub mod totals;
