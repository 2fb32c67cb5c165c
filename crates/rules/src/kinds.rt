// The kinds of inputs and outputs, and 01's number of each.
ghost use Rattle.rules.specs.Kinds.{Decodes, is_in_number, is_out_number};

use crate::{Input, InputKind, Output, OutputKind, Step, UnknownKind, Votes};

impl TryFrom<u8> for InputKind {
    type Error = UnknownKind;

    ghost try_from_gives = { Decodes };

    fn try_from(number: u8) -> Result<InputKind, UnknownKind> {
        match number {
            Input::START => Ok(InputKind::Start),
            Input::PROPOSAL => Ok(InputKind::Proposal),
            Input::PREVOTE => Ok(InputKind::Vote(Votes::Prevotes)),
            Input::PRECOMMIT => Ok(InputKind::Vote(Votes::Precommits)),
            Input::TIMER_PROPOSE => Ok(InputKind::Timer(Step::Propose)),
            Input::TIMER_PREVOTE => Ok(InputKind::Timer(Step::Prevote)),
            Input::TIMER_PRECOMMIT => Ok(InputKind::Timer(Step::Precommit)),
            _ => Err(UnknownKind(number)),
        }
    }
}

impl From<InputKind> for u8 {
    ghost from_gives = { is_in_number };

    fn from(kind: InputKind) -> u8 {
        match kind {
            InputKind::Start => Input::START,
            InputKind::Proposal => Input::PROPOSAL,
            InputKind::Vote(Votes::Prevotes) => Input::PREVOTE,
            InputKind::Vote(Votes::Precommits) => Input::PRECOMMIT,
            InputKind::Timer(Step::Propose) => Input::TIMER_PROPOSE,
            InputKind::Timer(Step::Prevote) => Input::TIMER_PREVOTE,
            InputKind::Timer(Step::Precommit) => Input::TIMER_PRECOMMIT,
        }
    }
}

impl From<OutputKind> for u8 {
    ghost from_gives = { is_out_number };

    fn from(kind: OutputKind) -> u8 {
        match kind {
            OutputKind::Proposal => Output::PROPOSAL,
            OutputKind::Vote(Votes::Prevotes) => Output::PREVOTE,
            OutputKind::Vote(Votes::Precommits) => Output::PRECOMMIT,
            OutputKind::Ask(Step::Propose) => Output::ASK_PROPOSE,
            OutputKind::Ask(Step::Prevote) => Output::ASK_PREVOTE,
            OutputKind::Ask(Step::Precommit) => Output::ASK_PRECOMMIT,
            OutputKind::Settled => Output::SETTLED,
        }
    }
}
