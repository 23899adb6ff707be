// The rounds of a job in lent buffers: quick rounds, steady rounds, and all of them (`solve`).

#![tactic(auto)]

pub mod quick;
pub mod scan;
pub mod solve;
pub mod steady;
