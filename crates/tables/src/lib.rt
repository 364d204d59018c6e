#![tactic(auto)]

mod addresses;
pub mod counting;
pub mod examples;
pub mod formulas;
pub mod maker;
pub mod one_hot;
pub mod plain;
pub mod size;
pub mod table;
#[cfg(test)]
mod tests;
