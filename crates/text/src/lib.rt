// What the programs print, laid into a lent buffer in ASCII.
//     number   a number in decimal digits
//     line     a refusal's line, and the line of numbers
//     image    one line of values for each row
//     answer   the whole text of an answer
//     report   the report of a season
// The text is not printed by `Display` and `write!`: their contracts say what was written only where they give `Ok`, and
// not that they do where there is room, and none of `put_answer`, `put_refusal` and `put_report` may fail.

#![tactic(auto)]

pub mod answer;
mod image;
pub mod line;
mod number;
pub mod report;
