#![tactic(auto)]

pub mod firsts;
