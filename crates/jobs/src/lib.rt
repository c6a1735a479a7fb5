#![tactic(auto)]

pub mod job;
pub mod stops;
