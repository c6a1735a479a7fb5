#![tactic(auto)]

pub mod account;
pub mod inputs;
pub mod limit;
pub mod line;
