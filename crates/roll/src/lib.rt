// Who votes and what they weigh.
#![tactic(auto)]

mod weigh;

// 003 keeps height, round and voting power as separate counters: a call cannot take one for another.
#[derive(Clone, Copy, PartialEq, Eq)]
pub struct Height(pub u32);

// Any byte, and no invariant that it is below 16: refusals 1 and 5 answer a state and an input of a higher one.
#[derive(Clone, Copy, PartialEq, Eq, PartialOrd, Ord)]
pub struct Round(pub u8);

#[derive(Clone, Copy)]
pub struct Power(pub u32);

// A round plus one; 0 is none, 003's -1. Not an `Option<Round>`: the journal and C have this number, and refusals 1 and 5 answer any that is too
// high (`held_fits`, `proposal_fits`).
#[derive(Clone, Copy, PartialEq, Eq)]
pub struct PlusOne(pub u8);

// The kiosks of a journal: the first `kiosks` of `powers` count (the engine has no heap). `own` is the seat of the kiosk whose journal it is.
// No invariant that there are at most 32: refusal 1 answers a state of more (`fits_with`, `whole`).
#[derive(Clone, Copy)]
pub struct Roll {
    pub kiosks: usize,
    pub powers: [u16; Roll::MOST],
    pub own: usize,
    pub height: Height,
}
