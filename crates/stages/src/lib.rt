#![tactic(auto)]

pub mod examples;
pub mod increments;
pub mod memory;
pub mod names;
pub mod plan;
pub mod prover;
pub mod theory;
