// The library that firmware links: each function of board under its own name in C, with the same promise.
#![tactic(auto)]

pub mod calls;
pub mod fields;
