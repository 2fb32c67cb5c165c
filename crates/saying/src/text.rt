// The text of one answer, written line by line, and then said at once.
ghost use Rattle.std.specs.Prelude.{◌≤◌};

use printing::text::Text as Lent;
use refusals::Answer;
use rules::Output;
use std::io;

// The room of an answer.
const ROOM: usize = 1024;

// The first `size` of these bytes: there is no heap.
#[derive(Drop)]
pub struct Text {
    bytes: [u8; ROOM],
    size: usize,
    ghost fits: { size ≤ 1024 },
}

impl Text {
    ghost use Rattle.std.specs.Prelude.{◌+◌, ◌<◌, ◌≡◌, [], ◌++◌, length};
    ghost use Rattle.words.specs.Bytes.{in_order};
    ghost use Rattle.listing.specs.Listing.{out_line, out_lines, refused_line};
    ghost use Rattle.printing.specs.InContracts.Pattern.{filled};
    ghost use Rattle.saying.specs.Texts.{text_of};
    ghost use Rattle.saying.specs.Saying.{said_room};

    pub fn new() -> Text
        ensures { text_of result ≡ [] }
    {
        Text {
            bytes: [0u8; ROOM],
            size: 0,
        }
    }

    // What is written goes through a text over these bytes, lent for one call: a function that takes the call as a closure would need a clause over
    // what the closure writes.

    // A line: its pattern with these numbers.
    pub fn line(&mut self, pattern: &[u8], numbers: &[u64])
        requires { length (text_of self.old) + length (filled pattern.now numbers.now) ≤ said_room }
        ensures { text_of self.new ≡ text_of self.old ++ filled pattern.now numbers.now }
    {
        let mut text = Lent {
            area: &mut self.bytes,
            size: self.size,
        };
        text.fill(pattern, numbers);
        self.size = text.size;
    }

    // A refusal's line.
    pub fn refusal(&mut self, answer: Answer)
        requires { length (text_of self.old) + length (refused_line answer) ≤ said_room }
        ensures { text_of self.new ≡ text_of self.old ++ refused_line answer }
    {
        let mut text = Lent {
            area: &mut self.bytes,
            size: self.size,
        };
        text.refused_line(answer);
        self.size = text.size;
    }

    fn output(&mut self, o: Output)
        requires { length (text_of self.old) + length (out_line o) ≤ said_room }
        ensures { text_of self.new ≡ text_of self.old ++ out_line o }
    {
        let mut text = Lent {
            area: &mut self.bytes,
            size: self.size,
        };
        text.out_line(o);
        self.size = text.size;
    }

    // The lines of some outputs.
    pub fn outputs(&mut self, list: &[Output])
        requires { length (text_of self.old) + length (in_order out_line list.now) ≤ said_room }
        ensures { text_of self.new ≡ text_of self.old ++ in_order out_line list.now }
    {
        for o in list {
            self.output(*o);
        }
    }

    // The lines of the outputs that a group has.
    pub fn outputs_of(&mut self, group: &[u8], count: usize)
        requires { (count < 256) × (length (text_of self.old) + length (out_lines count group.now) ≤ said_room) }
        ensures { text_of self.new ≡ text_of self.old ++ out_lines count group.now }
    {
        let mut text = Lent {
            area: &mut self.bytes,
            size: self.size,
        };
        text.outputs(group, count);
        self.size = text.size;
    }

    // All of it, in one write.
    pub fn say(&self, rt: &impl Print) -> io::Result<()> {
        rt.write_all(&self.bytes[..self.size])
    }
}
