#![tactic(auto)]

pub mod board;
pub mod links;
pub mod subtrees;
