#![tactic(auto)]

pub mod opening;
pub mod parts;
pub mod picking;
pub mod queue;
