// The library for other languages: the calls price, check, run, read and write, which include/relief.h
// declares, and its version. Each call hands its numbers to the call of that name and the answer out as
// plain numbers, and promises the same equations with document 01's definitions. Numbers, places and long lists of
// parameters are the C interface's.

#![tactic(auto)]

pub mod check;
mod numbers;
pub mod price;
pub mod read;
pub mod run;
pub mod version;
pub mod write;
