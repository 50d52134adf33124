// What bench/ times, for Rust or C to call: over numbers and slices alone, since C passes a struct by value by rules of
// each processor's own. `packing` makes one number of each answer.

#![tactic(auto)]

pub mod arithmetic;
pub mod inputs;
pub mod nodes;
pub mod outputs;
mod packing;
