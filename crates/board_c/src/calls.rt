// The calls.
ghost use Rattle.std.specs.Prelude.{◌≡◌, length};
ghost use Rattle.board.specs.Board.{board_create, board_open, board_again, board_put, last_part, board_list, Creates, Opens, SaysAgain, Says, Lists};

use flat::{FlatInput, FlatKiosk, FlatMade, FlatPage, FlatPart, FlatReply};

// A journal with this roll, own seat and height, in the lent area.
#[unsafe(no_mangle)]
pub extern "C" fn slip_create(
    powers: &[u16],
    own: usize,
    height: u32,
    journal: &mut [u8],
) -> FlatMade
    ensures { Creates (board_create powers.now own height journal.old) result journal.new }
{
    board::calls::slip_create(powers, own, height, journal)
}

// The kiosk whose journal the first `used` bytes of the area are.
#[unsafe(no_mangle)]
pub extern "C" fn slip_open(journal: &[u8], used: usize, table: &mut [u64]) -> FlatReply
    ensures { Opens (board_open journal.now used table.old) result table.new }
{
    board::calls::slip_open(journal, used, table)
}

// The same, and at the start of the area `said` the messages to send again and the timers to ask for again.
#[unsafe(no_mangle)]
pub extern "C" fn slip_again(
    journal: &[u8],
    used: usize,
    table: &mut [u64],
    said: &mut [u8],
) -> FlatReply
    ensures { SaysAgain (board_again journal.now used table.old said.old) result table.new said.new }
{
    board::calls::slip_again(journal, used, table, said)
}

// One input.
#[unsafe(no_mangle)]
pub extern "C" fn slip_put(
    f: FlatKiosk,
    i: FlatInput,
    table: &mut [u64],
    journal: &mut [u8],
) -> FlatReply
    ensures { Says (board_put i f table.old journal.old) result table.new journal.new }
{
    board::calls::slip_put(f, i, table, journal)
}

// The last whole group, as a part of the lent journal.
#[unsafe(no_mangle)]
pub extern "C" fn slip_last(f: FlatKiosk, journal: &[u8]) -> FlatPart
    ensures { result ≡ last_part f (length journal.now) }
{
    board::calls::slip_last(f, journal)
}

// The listing of a journal's bytes, at the start of the text area.
#[unsafe(no_mangle)]
pub extern "C" fn slip_list(b: &[u8], text: &mut [u8]) -> FlatPage
    ensures { Lists (board_list b.now text.old) result text.new }
{
    board::calls::slip_list(b, text)
}
