#![tactic(auto)]

pub mod ceiling;
pub mod close_up;
pub mod keeper;
pub mod ration;
