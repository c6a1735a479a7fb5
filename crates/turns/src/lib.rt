#![tactic(auto)]

pub mod order;
pub mod starting;
pub mod turning;
