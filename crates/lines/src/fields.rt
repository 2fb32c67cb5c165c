// The words of a line: the first of them, and what one says that is no plain number.
ghost use Rattle.std.specs.Prelude.{◌≡◌};
ghost use Rattle.lines.specs.Reading.{first_word, after_word, kind_word, valid_word};

use crate::numbers::number;
use listing::kinds::input_word;

// The bytes before the first space, and those after it.
pub fn first_word(line: &[u8]) -> (&[u8], &[u8])
    ensures word { result.0.now ≡ first_word line.now }
    ensures rest { result.1.now ≡ after_word line.now }
{
    match line.iter().position(|byte| *byte == b' ') {
        Some(at) => (&line[..at], &line[at + 1..]),
        None => (line, &[]),
    }
}

// A valid round, in its plus-one form.
#[tactic(auto, using(crate::proofs::Words::same_decided), unfolding(crate::specs::Reading::valid_word))]
pub fn valid(word: &[u8]) -> Option<u8>
    ensures { result ≡ valid_word word.now }
{
    if word == b"-1".as_slice() {
        return Some(0);
    }
    let round = number(word, 254)?;
    Some(round as u8 + 1)
}

// The kind of an input, by its word: the number that `kind_word` gives and an input has.
#[tactic(auto, using(crate::proofs::Words::same_decided, crate::proofs::Line::kind_none))]
pub fn kind(word: &[u8]) -> Option<u8>
    ensures { result ≡ kind_word word.now }
{
    for kind in 1..=7 {
        if word == input_word(u64::from(kind)) {
            return Some(kind);
        }
    }
    None
}
