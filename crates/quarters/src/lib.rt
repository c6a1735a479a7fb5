#![tactic(auto)]

pub mod quarter;
