//! Bit-packed fields, most significant bit first.

#![tactic(auto)]

pub mod reader;
pub mod writer;

/// The widest field.
const WIDEST: u32 = 64;
