// One pixel or one pair, from its neighbours: what the passes over a raster compute for each element.

#![tactic(auto)]

pub mod pair;
pub mod pixel;
pub mod rounding;
