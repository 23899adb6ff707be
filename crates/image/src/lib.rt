// The image of a flow: the row pass, and the pass over a raster.

#![tactic(auto)]

pub mod row;
pub mod whole;
