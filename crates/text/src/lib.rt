// The two texts' common parts: decimal and hex numbers, names and fields, read at a place of a slice of bytes and
// written at one.

#![tactic(auto)]

pub mod reading;
pub mod writing;
