#![tactic(auto)]

pub mod access;
