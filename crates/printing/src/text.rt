// A text in a lent area, written from its start on: bytes, words and numbers.
ghost use Rattle.std.specs.Prelude.{◌≡◌, ◌∷◌, [], length};
ghost use Rattle.listing.specs.Text.{digits, decimal, valid_round};
ghost use Rattle.printing.specs.InContracts.Texts.{HasRoom, Adds};

// What is written so far is the first `size` bytes of the area, which the caller lends, in C too (`slip_list`).
#[derive(Drop)]
pub struct Text<'a> {
    pub area: &'a mut [u8],
    pub size: usize,
}

impl Text<'_> {
    // One byte.
    pub fn put(&mut self, byte: u8)
        requires { HasRoom (byte ∷ []) self.old }
        ensures { Adds (byte ∷ []) self.old self.new }
    {
        self.area[self.size] = byte;
        self.size += 1;
    }

    // A word.
    pub fn word(&mut self, word: &[u8])
        requires { HasRoom word.now self.old }
        ensures { Adds word.now self.old self.new }
    {
        let end = self.size + word.len();
        self.area[self.size..end].copy_from_slice(word);
        self.size = end;
    }

    // The digits of a number, at most `left` of them. By hand: `Display` writes to a formatter, of whose bytes `decimal` would say nothing.
    fn digits(&mut self, x: u64, left: usize)
        requires { HasRoom (digits left x) self.old }
        ensures { Adds (digits left x) self.old self.new }
    {
        if left == 0 {
            return;
        }
        let lowest = (48 + x % 10) as u8;
        if x < 10 {
            return self.put(lowest);
        }
        self.digits(x / 10, left - 1);
        self.put(lowest);
    }

    // A number in decimal.
    pub fn number(&mut self, x: u64)
        requires { HasRoom (decimal x) self.old }
        ensures { Adds (decimal x) self.old self.new }
    {
        self.digits(x, 20);
    }

    // A valid round, from its plus-one form.
    pub fn valid_round(&mut self, next: u64)
        requires { HasRoom (valid_round next) self.old }
        ensures { Adds (valid_round next) self.old self.new }
    {
        if next == 0 {
            self.word(b"-1");
        } else {
            self.number(next - 1);
        }
    }
}
