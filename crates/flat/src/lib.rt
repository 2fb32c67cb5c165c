// The flat structs that cross to C: plain numbers laid out as include/slipcoacher.h has them.
// The log is an array of plain numbers already, and crosses as it is.
#![tactic(auto)]

pub mod fields;

use roll::Roll;
use rules::{Log, Sent};

#[repr(C)]
#[derive(Clone, Copy)]
pub struct FlatKiosk {
    pub kiosks: usize,
    pub own: usize,
    pub used: usize,
    pub last: usize,
    pub locked_name: u64,
    pub valid_name: u64,
    pub height: u32,
    pub powers: [u16; Roll::MOST],
    pub phase: u8,
    pub settled: u8,
    pub round: u8,
    pub step: u8,
    pub asked_propose: u8,
    pub asked_prevote: u8,
    pub asked_precommit: u8,
    pub backed: u8,
    pub locked_next: u8,
    pub valid_next: u8,
    pub log: Log,
}

#[repr(C)]
#[derive(Clone, Copy)]
pub struct FlatInput {
    pub name: u64,
    pub offer: u64,
    pub height: u32,
    pub kind: u8,
    pub sender: u8,
    pub round: u8,
    pub valid: u8,
    pub verdict: u8,
}

// By default, what stands in a place that no output has come to.
#[repr(C)]
#[derive(Clone, Copy, Default)]
pub struct FlatOutput {
    pub name: u64,
    pub kind: u8,
    pub round: u8,
    pub valid: u8,
}

#[repr(C)]
#[derive(Clone, Copy)]
pub struct FlatReply {
    pub number: u32,
    pub place: usize,
    pub count: usize,
    pub sent: [FlatOutput; Sent::MOST],
    pub kiosk: FlatKiosk,
}

#[repr(C)]
#[derive(Clone, Copy)]
pub struct FlatMade {
    pub number: u32,
    pub used: usize,
}

// A part of the lent journal.
#[repr(C)]
#[derive(Clone, Copy)]
pub struct FlatPart {
    pub from: usize,
    pub count: usize,
}

#[repr(C)]
#[derive(Clone, Copy)]
pub struct FlatPage {
    pub number: u32,
    pub size: usize,
}
