#![tactic(auto)]

pub mod fill;
pub mod lent;
pub mod repeat;
pub mod supply;
pub mod take;
