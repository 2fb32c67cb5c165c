// A line from its pattern: each byte of the pattern is written, or what it stands for. std's `write!` would do, were there a clause that says
// when it succeeds: `Prints` promises the whole text wherever the area has room.
ghost use Rattle.std.specs.Prelude.{◌≡◌, get_or, drop};
ghost use Rattle.printing.specs.InContracts.Texts.{HasRoom, Adds};
ghost use Rattle.printing.specs.InContracts.Pattern.{piece, taken, filled};

use crate::text::Text;
use listing::kinds::{input_word, output_word};

// The first number; 0 where there is none.
fn first(numbers: &[u64]) -> u64
    ensures { result ≡ get_or numbers.now 0 0 }
{
    match numbers {
        [] => 0,
        [number, ..] => *number,
    }
}

// The numbers that are left after a byte of a pattern.
#[tactic(auto, unfolding(crate::specs::InContracts::Pattern::taken))]
fn left(byte: u8, numbers: &[u64]) -> &[u64]
    ensures { result.now ≡ drop (taken byte) numbers.now }
{
    let is_mark = matches!(byte, b'%' | b'#' | b'<' | b'>');
    if is_mark & (0 < numbers.len()) {
        &numbers[1..]
    } else {
        numbers
    }
}

impl Text<'_> {
    // What one byte of a pattern stands for: `x` is the next number.
    #[tactic(auto, unfolding(crate::specs::InContracts::Pattern::piece))]
    fn piece(&mut self, byte: u8, x: u64)
        requires { HasRoom (piece byte x) self.old }
        ensures { Adds (piece byte x) self.old self.new }
    {
        match byte {
            b'%' => self.number(x),
            b'#' => self.valid_round(x),
            b'<' => self.word(input_word(x)),
            b'>' => self.word(output_word(x)),
            _ => self.put(byte),
        }
    }

    // A pattern with its numbers, in order.
    pub fn fill(&mut self, pattern: &[u8], numbers: &[u64])
        requires { HasRoom (filled pattern.now numbers.now) self.old }
        ensures { Adds (filled pattern.now numbers.now) self.old self.new }
    {
        let mut rest = numbers;
        for byte in pattern {
            self.piece(*byte, first(rest));
            rest = left(*byte, rest);
        }
    }
}
