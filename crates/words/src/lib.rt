// The words that the other crates are written in: seat marks, and bytes.
#![tactic(auto)]

pub mod bytes;
pub mod marks;

// Why bytes are not the expected ones in whole: they are too few, or one differs.
#[derive(Clone, Copy, PartialEq, Eq)]
pub enum Fault {
    Unfinished,
    Damage,
}
