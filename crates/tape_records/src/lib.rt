// One record of the job tape, at an offset.
//     bytes    numbers in bytes
//     state    what has been read so far, in counts
//     parse    one record read
//     encode   one record written
//     section  the records that a tape repeats, one for each number of a list

#![tactic(auto)]

pub mod bytes;
pub mod encode;
pub mod parse;
pub mod section;
pub mod state;
