// A word as a number in decimal, as the lister writes it: no sign, no zero in front.
ghost use Rattle.std.specs.Prelude.{◌≤◌, ◌≡◌};
ghost use Rattle.lines.specs.Reading.{number_word, most_8};
ghost use Rattle.lines.specs.InContracts.Digits.{digits_word, plain};

// The number that a word of digits says, up to `most`. By hand: `parse` takes a sign too, and its bound is the type's.
#[tactic(auto, using(crate::proofs::Decimals::digits_done))]
fn digits(word: &[u8], most: u64) -> Option<u64>
    requires { 9 ≤ most }
    ensures { result ≡ digits_word most word.now }
{
    let mut value: u64 = 0;
    for byte in word {
        if !byte.is_ascii_digit() {
            return None;
        }
        let digit = u64::from(*byte - b'0');
        if (most - digit) / 10 < value {
            return None;
        }
        value = 10 * value + digit;
    }
    Some(value)
}

// Not empty, and with no zero before another digit.
#[tactic(auto, using(crate::proofs::Decimals::plain_empty, crate::proofs::Decimals::plain_one, crate::proofs::Decimals::plain_more))]
fn is_plain(word: &[u8]) -> bool
    ensures { result ≡ plain word.now }
{
    match word {
        [] => false,
        [_] => true,
        [first, ..] => *first != b'0',
    }
}

// The number that is written as this word is, up to `most`.
#[tactic(auto, using(crate::proofs::Decimals::number_plain, crate::proofs::Decimals::number_not_plain))]
pub fn number(word: &[u8], most: u64) -> Option<u64>
    requires { 9 ≤ most }
    ensures { result ≡ number_word most word.now }
{
    if is_plain(word) {
        digits(word, most)
    } else {
        None
    }
}

// A number of one byte.
pub fn byte(word: &[u8]) -> Option<u8>
    ensures { result ≡ number_word most_8 word.now }
{
    let value = number(word, 255)?;
    Some(value as u8)
}
