// Algorithm 1 of 003: the voting state, and what goes in and out of it.
#![tactic(auto)]

pub mod desk;
pub mod enums;
pub mod kinds;
pub mod outputs;
pub mod places;

use roll::{Height, PlusOne, Power, Roll, Round};

#[derive(Clone, Copy)]
pub enum Phase {
    // Not started yet.
    Fresh,
    Running,
    // The height has ended, with the sheet proposed in this round.
    Settled(Round),
}

#[derive(Clone, Copy, PartialEq, Eq)]
pub enum Step {
    Propose,
    Prevote,
    Precommit,
}

// The two types of vote.
#[derive(Clone, Copy, PartialEq, Eq)]
pub enum Votes {
    Prevotes,
    Precommits,
}

// The timers asked for in the current round. `prevote` and `precommit` are also the "first time" marks of rules 34 and 47.
#[derive(Clone, Copy)]
pub struct Asked {
    pub propose: bool,
    pub prevote: bool,
    pub precommit: bool,
}

// Where the kiosk stands in its current round. `backed`: rule 36 has fired in it.
#[derive(Clone, Copy)]
pub struct Stand {
    pub round: Round,
    pub step: Step,
    pub asked: Asked,
    pub backed: bool,
}

// A locked or a valid sheet: its round plus one and its name (0: none). Not an Option: refusal 1 answers a round without a name and a
// name without a round (`held_fits`).
#[derive(Clone, Copy)]
pub struct Held {
    pub next: PlusOne,
    pub name: u64,
}

// What is heard of a round, names aside (the lent table has those): a mark for each seat whose prevote, and whose precommit, is
// heard; the proposal (0: none is heard, 1: one with verdict 0, more: one with verdict 1) and its valid round plus one. Plain numbers, as
// the log has them, any of which a made-up state may hold (`spoken`, `good`).
#[derive(Clone, Copy)]
pub struct Heard {
    pub prevotes: u32,
    pub precommits: u32,
    pub proposal: u32,
    pub valid: u32,
}

// What a kiosk holds of its height: where it stands, and its locked and its valid sheet.
#[derive(Clone, Copy)]
pub struct Progress {
    pub phase: Phase,
    pub stand: Stand,
    pub locked: Held,
    pub valid: Held,
}

// What is heard of every round: the numbers of `Heard` for each round, in order. An array of numbers, since it crosses to C as it is.
pub type Log = [u32; State::LOG];

// The voting state of a kiosk, in the parts that the steps of a call hand on: the log is lent to them.
#[derive(Clone, Copy)]
pub struct State {
    pub roll: Roll,
    pub progress: Progress,
    pub log: Log,
}

impl State {
    // 01: rounds 0 to 15; 65 numbers of the table for each round. The log has 4. Both are plain numbers in C too, which lends the table.
    pub const ROUNDS: usize = 16;

    pub const TABLE_PER_ROUND: usize = 65;

    pub const TABLE: usize = 1040;

    pub const LOG_PER_ROUND: usize = 4;

    pub const LOG: usize = 64;

    // Firings left as a call begins: no call needs so many.
    pub const FIRINGS: usize = 136;
}

// What a call does not change: the roll, its total power, and the offer. No invariant that the total is the roll's: `act` and `begin` (firing)
// promise what they do with any.
#[derive(Clone, Copy)]
pub struct Given {
    pub roll: Roll,
    pub total: Power,
    pub offer: u64,
}

// A rule of 003, by its line, with what it was found to apply to: the sheet that is backed, the round and sheet to settle, the
// round to go to.
#[derive(Clone, Copy)]
pub enum Rule {
    Line22,
    Line28,
    Line34,
    Line36(u64),
    Line44,
    Line47,
    Line49(Round, u64),
    Line55(Round),
}

// What a call is given. `kind`, `sender`, `valid` and `verdict` are numbers, and not enums or a bool: refusal 5 answers the others.
#[derive(Clone, Copy)]
pub struct Input {
    pub kind: u8,
    pub height: Height,
    pub sender: u8,
    pub round: Round,
    pub valid: PlusOne,
    pub verdict: u8,
    pub name: u64,
    pub offer: u64,
}

// The kinds of inputs; a number that is none of them is refused (5).
#[derive(Clone, Copy, PartialEq, Eq)]
pub enum InputKind {
    Start,
    Proposal,
    Vote(Votes),
    Timer(Step),
}

// A number that no kind of input has.
#[derive(Clone, Copy, PartialEq, Eq)]
pub struct UnknownKind(pub u8);

// 01's numbers of the kinds of inputs.
impl Input {
    pub const START: u8 = 1;

    pub const PROPOSAL: u8 = 2;

    pub const PREVOTE: u8 = 3;

    pub const PRECOMMIT: u8 = 4;

    pub const TIMER_PROPOSE: u8 = 5;

    pub const TIMER_PREVOTE: u8 = 6;

    pub const TIMER_PRECOMMIT: u8 = 7;
}

// What a call sends. `kind` is the number that a group of the journal has, read back as it stands.
#[derive(Clone, Copy)]
pub struct Output {
    pub kind: u8,
    pub round: Round,
    pub valid: PlusOne,
    pub name: u64,
}

// The kinds of outputs.
#[derive(Clone, Copy, PartialEq, Eq)]
pub enum OutputKind {
    Proposal,
    Vote(Votes),
    Ask(Step),
    Settled,
}

// 01's numbers of the kinds of outputs.
impl Output {
    pub const PROPOSAL: u8 = 1;

    pub const PREVOTE: u8 = 2;

    pub const PRECOMMIT: u8 = 3;

    pub const ASK_PROPOSE: u8 = 4;

    pub const ASK_PREVOTE: u8 = 5;

    pub const ASK_PRECOMMIT: u8 = 6;

    pub const SETTLED: u8 = 7;
}

// The outputs of a call, in order: the first `count` of `list`. Six places and no Vec: the engine has no heap. No invariant that `count` is at most
// 6: `packed` (specs) makes one of any list, and `flat_reply` (twins) promises its answer of any.
#[derive(Clone, Copy)]
pub struct Sent {
    pub count: usize,
    pub list: [Output; 6],
}

impl Sent {
    // 01: an accepted call has at most 6 outputs.
    pub const MOST: usize = 6;
}
