// Numbers by field, for a caller to see that its compiler lays the structs as this library does.
ghost use Rattle.std.specs.Prelude.{◌≤◌, ◌≡◌};
ghost use Rattle.flat.specs.Fields.{plain_number, kiosk_number, input_number, output_from, layout_from, layout};

use crate::{FlatInput, FlatKiosk, FlatOutput, FlatReply};
use roll::Roll;
use rules::State;

// The tables go by number, since a C caller names a field by its place in the struct (`slip_kiosk_number`).

// A field that is one number.
#[tactic(auto, unfolding(crate::specs::Fields::plain_number))]
fn plain_number(f: FlatKiosk, field: usize) -> u64
    ensures { result ≡ plain_number f field }
{
    match field {
        0 => f.kiosks as u64,
        1 => f.own as u64,
        2 => f.used as u64,
        3 => f.last as u64,
        4 => f.locked_name,
        5 => f.valid_name,
        6 => u64::from(f.height),
        8 => u64::from(f.phase),
        9 => u64::from(f.settled),
        10 => u64::from(f.round),
        11 => u64::from(f.step),
        12 => u64::from(f.asked_propose),
        13 => u64::from(f.asked_prevote),
        14 => u64::from(f.asked_precommit),
        15 => u64::from(f.backed),
        16 => u64::from(f.locked_next),
        17 => u64::from(f.valid_next),
        _ => 0,
    }
}

#[tactic(auto, unfolding(crate::specs::Fields::kiosk_number))]
pub fn kiosk_number(f: FlatKiosk, field: usize, index: usize) -> u64
    ensures { result ≡ kiosk_number f field index }
{
    match field {
        // The array alone is copied to be indexed, and not the struct.
        7 if index < Roll::MOST => {
            let powers = f.powers;
            u64::from(powers[index])
        }
        18 if index < State::LOG => {
            let log = f.log;
            u64::from(log[index])
        }
        0..=6 | 8..=17 => plain_number(f, field),
        _ => 0,
    }
}

#[tactic(auto, unfolding(crate::specs::Fields::input_number))]
pub fn input_number(i: FlatInput, field: usize) -> u64
    ensures { result ≡ input_number i field }
{
    match field {
        0 => i.name,
        1 => i.offer,
        2 => u64::from(i.height),
        3 => u64::from(i.kind),
        4 => u64::from(i.sender),
        5 => u64::from(i.round),
        6 => u64::from(i.valid),
        7 => u64::from(i.verdict),
        _ => 0,
    }
}

fn output_from(n: u8) -> FlatOutput
    requires { n ≤ 252 }
    ensures { result ≡ output_from n }
{
    FlatOutput {
        name: u64::from(n),
        kind: n + 1,
        round: n + 2,
        valid: n + 3,
    }
}

fn layout_from(kiosk: FlatKiosk, n: u8) -> FlatReply
    requires { n ≤ 200 }
    ensures { result ≡ layout_from kiosk n }
{
    FlatReply {
        number: u32::from(n),
        place: usize::from(n + 1),
        count: usize::from(n + 2),
        sent: [
            output_from(n + 3),
            output_from(n + 7),
            output_from(n + 11),
            output_from(n + 15),
            output_from(n + 19),
            output_from(n + 23),
        ],
        kiosk,
    }
}

#[tactic(auto, unfolding(crate::specs::Fields::layout))]
pub fn layout(f: FlatKiosk, first: u8) -> FlatReply
    ensures { result ≡ layout f first }
{
    layout_from(f, first.min(200))
}
