// Writing a job to a tape.
//     put      the records of a whole job, into the output
//     write    write

#![tactic(auto)]

mod put;
pub mod write;
