// The calls.
ghost use Rattle.std.specs.Prelude.{◌≡◌, length};
ghost use Rattle.board.specs.Board.{board_create, board_open, board_again, board_put, last_part, board_list, Creates, Opens, SaysAgain, Says, Lists};

use again::say_again;
use flat::{FlatInput, FlatKiosk, FlatMade, FlatPage, FlatPart, FlatReply};
use kiosk::calls::create;
use kiosk::lent::put_lent;
use opening::open;
use printing::print_journal;
use roll::Height;
use twins::sent::{flat_done, flat_reply, impossible, input_of};
use twins::state::{course_of, holds, roll_of};

// A journal with this roll, own seat and height, in the lent area.
pub fn slip_create(powers: &[u16], own: usize, height: u32, journal: &mut [u8]) -> FlatMade
    ensures { Creates (board_create powers.now own height journal.old) result journal.new }
{
    let made = create(powers, own, Height(height), journal);
    FlatMade {
        number: u32::from(made.answer),
        used: made.used,
    }
}

// The kiosk whose journal the first `used` bytes of the area are.
pub fn slip_open(journal: &[u8], used: usize, table: &mut [u64]) -> FlatReply
    ensures { Opens (board_open journal.now used table.old) result table.new }
{
    flat_reply(open(journal, used, table))
}

// The same, and at the start of the area `said` the messages to send again and the timers to ask for again.
pub fn slip_again(journal: &[u8], used: usize, table: &mut [u64], said: &mut [u8]) -> FlatReply
    ensures { SaysAgain (board_again journal.now used table.old said.old) result table.new said.new }
{
    flat_reply(say_again(journal, used, table, said))
}

// One input.
pub fn slip_put(f: FlatKiosk, i: FlatInput, table: &mut [u64], journal: &mut [u8]) -> FlatReply
    ensures { Says (board_put i f table.old journal.old) result table.new journal.new }
{
    if !holds(f) {
        return impossible(f);
    }
    let mut next = f;
    let done = put_lent(
        course_of(f),
        roll_of(f),
        input_of(i),
        &mut next.log,
        table,
        journal,
    );
    flat_done(next, done)
}

// The last whole group, as a part of the lent journal.
#[tactic(auto, unfolding(crate::specs::Board::last_part))]
pub fn slip_last(f: FlatKiosk, journal: &[u8]) -> FlatPart
    ensures { result ≡ last_part f (length journal.now) }
{
    if f.used <= f.last || journal.len() < f.used {
        return FlatPart { from: 0, count: 0 };
    }
    FlatPart {
        from: f.last,
        count: f.used - f.last,
    }
}

// The listing of a journal's bytes, at the start of the text area.
pub fn slip_list(b: &[u8], text: &mut [u8]) -> FlatPage
    ensures { Lists (board_list b.now text.old) result text.new }
{
    let page = print_journal(b, text);
    FlatPage {
        number: u32::from(page.answer),
        size: page.size,
    }
}
