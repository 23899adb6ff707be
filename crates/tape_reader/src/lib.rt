// Reading a job from a tape.
//     transition   the transition of the parser on one record
//     reader       the lent bytes with the offset of the next record
//     scan         a tape, from record to record, with nothing written
//     fill         the numbers of a whole tape, into the buffers
//     read         read

#![tactic(auto)]

mod fill;
pub mod read;
mod reader;
pub mod scan;
pub mod transition;
