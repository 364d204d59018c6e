#![tactic(auto)]

pub mod f257;
pub mod f31;
pub mod field;
pub mod p31;
pub mod refusal;
pub mod residue;
#[cfg(test)]
mod tests;
pub mod worked;
