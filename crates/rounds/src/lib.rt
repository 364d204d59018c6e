#![tactic(auto)]

pub mod message;
pub mod polynomial;
#[cfg(test)]
mod tests;
pub mod theory;
