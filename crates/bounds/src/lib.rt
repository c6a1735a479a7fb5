#![tactic(auto)]

pub mod choice;
mod joined;
pub mod prefixes;
