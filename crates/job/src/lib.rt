// The job of a tape, in tables that are lent.
//     call     its call: check, or run
//     answer   the answer to what was read
//     tape     the text for a tape

#![tactic(auto)]

pub mod answer;
mod call;
pub mod tape;
