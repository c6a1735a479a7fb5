#![tactic(auto)]

pub mod legs;
pub mod list;
pub mod street;
