// What a phase says, and what a type of vote and a step stand for.
ghost use Rattle.std.specs.Prelude.{◌≡◌};
ghost use Rattle.rules.specs.State.{is_fresh, is_running, is_settled, settled_round};
ghost use Rattle.rules.specs.Doing.{step_of};

use crate::{Phase, Step, Votes};

impl Phase {
    pub fn is_fresh(self) -> bool
        ensures { result ≡ is_fresh self }
    {
        matches!(&self, Phase::Fresh)
    }

    pub fn is_running(self) -> bool
        ensures { result ≡ is_running self }
    {
        matches!(&self, Phase::Running)
    }

    pub fn is_settled(self) -> bool
        ensures { result ≡ is_settled self }
    {
        matches!(&self, Phase::Settled(_))
    }

    // The round that a kiosk settled in, 0 before that.
    pub fn settled_round(self) -> u8
        ensures { result ≡ settled_round self }
    {
        match self {
            Phase::Settled(r) => r.0,
            _ => 0,
        }
    }
}

// The step that a vote is.
impl From<Votes> for Step {
    fn from(v: Votes) -> Step
        ensures { result ≡ step_of v }
    {
        match v {
            Votes::Prevotes => Step::Prevote,
            Votes::Precommits => Step::Precommit,
        }
    }
}
