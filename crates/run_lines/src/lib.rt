#![tactic(auto)]

pub mod reply;
