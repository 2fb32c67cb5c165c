// The words of the kinds of inputs and outputs. By number, as the definitions give every number a word, one of no kind too.
ghost use Rattle.std.specs.Prelude.{◌≡◌};
ghost use Rattle.listing.specs.Text.{input_word, output_word};

// The word of an input's kind.
#[tactic(auto, unfolding(crate::specs::Text::input_word))]
pub fn input_word(kind: u64) -> &'static [u8]
    ensures { result.now ≡ input_word kind }
{
    match kind {
        1 => b"start",
        2 => b"proposal",
        3 => b"prevote",
        4 => b"precommit",
        5 => b"timer-propose",
        6 => b"timer-prevote",
        _ => b"timer-precommit",
    }
}

// The word of an output's kind.
#[tactic(auto, unfolding(crate::specs::Text::output_word))]
pub fn output_word(kind: u64) -> &'static [u8]
    ensures { result.now ≡ output_word kind }
{
    match kind {
        1 => b"proposal",
        2 => b"prevote",
        3 => b"precommit",
        4 => b"ask-propose",
        5 => b"ask-prevote",
        6 => b"ask-precommit",
        _ => b"settled",
    }
}
