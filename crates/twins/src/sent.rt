// Inputs, outputs and replies, and their twins. No `From`: neither type is of this crate, and flat, which has one, lies below the definitions.
ghost use Rattle.std.specs.Prelude.{◌≡◌};
ghost use Rattle.kiosk.specs.InContracts.Lent.{reply_of};
ghost use Rattle.twins.specs.Twins.{roll_of, input_of, flat_output, flat_reply, impossible};

use crate::state::{bare, with_course};
use flat::{FlatInput, FlatKiosk, FlatOutput, FlatReply};
use kiosk::{Done, Reply};
use roll::{Height, PlusOne, Round};
use rules::{Input, Output, Sent};

pub fn input_of(i: FlatInput) -> Input
    ensures { result ≡ input_of i }
{
    Input {
        kind: i.kind,
        height: Height(i.height),
        sender: i.sender,
        round: Round(i.round),
        valid: PlusOne(i.valid),
        verdict: i.verdict,
        name: i.name,
        offer: i.offer,
    }
}

fn flat_output(o: Output) -> FlatOutput
    ensures { result ≡ flat_output o }
{
    FlatOutput {
        name: o.name,
        kind: o.kind,
        round: o.round.0,
        valid: o.valid.0,
    }
}

// The reply of a call to which the log of the twin was lent: the twin with the log after it, and what the call gives.
pub fn flat_done(f: FlatKiosk, d: Done) -> FlatReply
    ensures { result ≡ flat_reply (reply_of (roll_of f) f.log d) }
{
    FlatReply {
        number: u32::from(d.answer),
        place: d.answer.place(),
        count: d.sent.count,
        sent: d.sent.list.map(flat_output),
        kiosk: with_course(f, d.course),
    }
}

pub fn flat_reply(r: Reply) -> FlatReply
    ensures { result ≡ flat_reply r }
{
    let done = Done {
        answer: r.answer,
        sent: r.sent,
        course: r.kiosk.course(),
    };
    flat_done(bare(r.kiosk.state.roll, r.kiosk.state.log), done)
}

// Refusal 1, with the state that was given.
pub fn impossible(f: FlatKiosk) -> FlatReply
    ensures { result ≡ impossible f }
{
    FlatReply {
        number: 1,
        place: 0,
        count: 0,
        sent: [FlatOutput::default(); Sent::MOST],
        kiosk: f,
    }
}
