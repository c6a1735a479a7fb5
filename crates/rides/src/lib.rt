#![tactic(auto)]

mod closure;
mod pairs;
pub mod table;
