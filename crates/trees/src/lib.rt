#![tactic(auto)]

pub mod laws;
