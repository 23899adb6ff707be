// Validation of what a call is lent. What the calls and the job tape share: the limits of a job's
// terms, the length of a buffer that need not be lent, the counts of pixels and pairs, the weights of
// pairs, and the first flow number beyond its pair's weight; then single rows of the table of refusals, and
// where check, price, run and write turn back.

#![tactic(auto)]

mod beyond;
mod counts;
mod limits;
mod range;
mod refusals;
mod rows;
mod search;
mod terms;
mod weights;

pub use beyond::is_beyond;
pub use counts::{pairs, pixels};
pub use limits::{all_or_none, box_allowed, quick_allowed, size_allowed, weight_allowed};
pub use refusals::{judge_check, judge_price, judge_run, judge_write};
pub use rows::require;
