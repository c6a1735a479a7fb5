#![tactic(auto)]

pub mod length;
pub mod number;
pub mod reader;

pub use length::MOST_BYTES;
