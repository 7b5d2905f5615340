#![tactic(auto)]

pub mod clause;
pub mod element;
pub mod refusal;
