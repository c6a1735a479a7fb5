#![tactic(auto)]

pub mod cell;
pub mod order;
pub mod places;
