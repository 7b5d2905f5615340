#![tactic(auto)]

mod edit;
pub mod fault;
pub mod heaps;
mod rest;
pub mod step;
