// Passes over all pairs of a raster, a run at a time, and over its pixels; parts of a buffer that may
// be empty. Each pass over a raster has a loop over the runs of its own: what it makes of a run's parts
// (one buffer written, or two, a sum, a first answer) would be a closure as long as the loop, with the
// run's contract written out once more for it.

#![tactic(auto)]

pub mod advance;
pub mod part;
pub mod pixels;
pub mod search;
pub mod step;
pub mod sums;
