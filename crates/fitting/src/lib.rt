#![tactic(auto)]

pub mod owns;
