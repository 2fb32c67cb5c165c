// 01's four-kiosk examples, told to the proved calls: a journal is created and opened, one input after the other is put, and the
// outputs of each call are printed: how many, and of each its kind, round, valid round plus one and name.
#![tactic(auto)]

use kiosk::calls::create;
use opening::open;
use roll::{Height, PlusOne, Round};
use rules::{Input, Output, State};
use std::io;

// The bytes of a journal of four kiosks.
const FOUR: usize = 5147;

// Kind, sender, round, name; offer 9, and a proposal has verdict 1 and valid round -1.
fn given(kind: u8, sender: u8, round: u8, name: u64) -> Input {
    Input {
        kind,
        height: Height(1),
        sender,
        round: Round(round),
        valid: PlusOne(0),
        verdict: if kind == Input::PROPOSAL { 1 } else { 0 },
        name,
        offer: 9,
    }
}

fn show(rt: &impl Print, o: Output) -> io::Result<()> {
    println!(rt; "{} {} {} {}", o.kind, o.round.0, o.valid.0, o.name)
}

// The inputs put to a new kiosk, "Four kiosks of power 1, height 1, own number 0", and the outputs of each call.
fn told<const N: usize>(rt: &impl Print, inputs: [Input; N]) -> io::Result<()> {
    let mut journal = [0u8; FOUR];
    let mut table = [0u64; State::TABLE];
    let made = create(&[1; 4], 0, Height(1), &mut journal);
    let mut kiosk = open(&journal, made.used, &mut table).kiosk;
    for i in inputs {
        let reply = kiosk.put(i, &mut table, &mut journal);
        println!(rt; "{}", reply.sent.count)?;
        for o in reply.sent.list.iter().take(reply.sent.count) {
            show(rt, *o)?;
        }
        kiosk = reply.kiosk;
    }
    Ok(())
}

fn main(rt: HostRuntime) -> io::Result<()> {
    // "start at first", and on to the nil prevote of round 1.
    told(
        &rt,
        [
            given(Input::START, 0, 0, 0),
            given(Input::PROPOSAL, 1, 0, 50),
            given(Input::PREVOTE, 1, 0, 50),
            given(Input::PREVOTE, 2, 0, 50),
            given(Input::PRECOMMIT, 1, 0, 0),
            given(Input::PRECOMMIT, 2, 0, 0),
            given(Input::TIMER_PRECOMMIT, 0, 0, 0),
            given(Input::PROPOSAL, 2, 1, 60),
        ],
    )?;
    // "Fresh start instead", and on to the proposal of round 3.
    told(
        &rt,
        [
            given(Input::START, 0, 0, 0),
            given(Input::PREVOTE, 2, 3, 0),
            given(Input::PRECOMMIT, 2, 3, 0),
            given(Input::PREVOTE, 3, 3, 0),
        ],
    )
}
