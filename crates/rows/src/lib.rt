#![tactic(auto)]

pub mod check;
pub mod laws;
pub mod rebuild;
pub mod sift;
