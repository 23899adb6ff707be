// The calls that judge and run a job: each takes its numbers and lent buffers, tests them itself,
// and promises its whole answer and every buffer by an equation with document 01's definitions. The parameters are the
// calls' own, as the C functions, the wrapper and the guides have them; a buffer of length 0 is none.

#![tactic(auto)]

pub mod check;
pub mod figures;
pub mod price;
pub mod run;
