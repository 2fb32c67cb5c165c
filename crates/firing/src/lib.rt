// What each rule, start and each timer does, as one act; the work of a call: the rules fired in turn, with the way back.
#![tactic(auto)]

pub mod doing;
pub mod fire;
pub mod hearing;
pub mod within;

use rules::{Log, Output, Progress, Sent};

// What a kiosk does at once: its votes after it, and at most one output. An own message among the outputs goes in the own log.
#[derive(Clone, Copy)]
pub struct Act {
    pub progress: Progress,
    pub output: Option<Output>,
}

// The places of the table that were written, the first `count` of `places`: each with the name that it held. No `Vec`: the engine has
// no heap. That `count` is at most 7 was tried as an invariant: `longer` (specs), which adds a place to any trail, is not admitted then.
#[derive(Clone, Copy)]
pub struct Trail {
    pub count: usize,
    pub places: [(usize, u64); Trail::MOST],
}

impl Trail {
    // A call writes a place for each output, and one for the input.
    pub const MOST: usize = 7;

    pub const EMPTY: Trail = Trail {
        count: 0,
        places: [(0, 0); Trail::MOST],
    };
}

// What is lent to a call, its log and its table, with the trail by which the table can be taken back.
#[derive(Drop)]
pub struct Lent<'a> {
    pub log: &'a mut Log,
    pub table: &'a mut [u64],
    pub trail: Trail,
}

// The work of a call: the progress after it, and the outputs. The log and the table are in what was lent.
#[derive(Clone, Copy)]
pub struct Worked {
    pub progress: Progress,
    pub sent: Sent,
}
