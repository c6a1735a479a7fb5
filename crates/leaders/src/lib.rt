#![tactic(auto)]

pub mod advancing;
pub mod rows;
