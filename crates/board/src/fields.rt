// Numbers by field, for a caller to see that its compiler lays the structs as this library does.
ghost use Rattle.std.specs.Prelude.{◌≡◌};
ghost use Rattle.flat.specs.Fields.{kiosk_number, input_number, layout};

use flat::fields::{input_number, kiosk_number, layout};
use flat::{FlatInput, FlatKiosk, FlatReply};

pub fn slip_kiosk_number(f: FlatKiosk, field: usize, index: usize) -> u64
    ensures { result ≡ kiosk_number f field index }
{
    kiosk_number(f, field, index)
}

pub fn slip_input_number(i: FlatInput, field: usize) -> u64
    ensures { result ≡ input_number i field }
{
    input_number(i, field)
}

pub fn slip_layout(f: FlatKiosk, first: u8) -> FlatReply
    ensures { result ≡ layout f first }
{
    layout(f, first)
}
