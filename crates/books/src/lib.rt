#![tactic(auto)]

pub mod book;
mod entries;
pub mod line;
