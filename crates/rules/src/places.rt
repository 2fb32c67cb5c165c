// Where the log and the lent table hold what is heard of a round.
ghost use Rattle.std.specs.Prelude.{◌*◌, ◌<◌, ◌≡◌, length, get_or};
ghost use Rattle.rules.specs.State.{most_rounds, log_per_round, marks_at, marks_of, spoken, good, unheard};
ghost use Rattle.rules.specs.Log.{table_length, proposal_place, votes_place, told};

use crate::{Heard, Log, State, Votes};
use roll::{Roll, Round};

// Where a round's proposal stands in the table.
pub fn proposal_place(r: Round) -> usize
    ensures { result ≡ proposal_place r.0 }
{
    State::TABLE_PER_ROUND * usize::from(r.0)
}

// Where the votes of a type and round begin in the table.
pub fn votes_place(v: Votes, r: Round) -> usize
    ensures { result ≡ votes_place v r.0 }
{
    match v {
        Votes::Prevotes => proposal_place(r) + 1,
        Votes::Precommits => proposal_place(r) + 1 + Roll::MOST,
    }
}

// The name of a round's proposal.
pub fn proposed(table: &[u64], r: Round) -> u64
    requires { (r.0 < most_rounds) × (length table.now ≡ table_length) }
    ensures { result ≡ get_or table.now (proposal_place r.0) 0 }
{
    table[proposal_place(r)]
}

// Where the marks of a type and round stand in the log.
pub fn marks_place(v: Votes, r: Round) -> usize
    ensures { result ≡ marks_at v r.0 }
{
    match v {
        Votes::Prevotes => log_place(r),
        Votes::Precommits => log_place(r) + 1,
    }
}

// Where the numbers of a round begin in the log.
pub fn log_place(r: Round) -> usize
    ensures { result ≡ log_per_round * r.0 }
{
    State::LOG_PER_ROUND * usize::from(r.0)
}

// What is heard of a round.
#[tactic(auto, unfolding(crate::specs::Log::told))]
pub fn heard(log: &Log, r: Round) -> Heard
    requires { r.0 < most_rounds }
    ensures { result ≡ told log.now r.0 }
{
    let at = log_place(r);
    Heard {
        prevotes: log[at],
        precommits: log[at + 1],
        proposal: log[at + 2],
        valid: log[at + 3],
    }
}

impl Heard {
    // Whether the round's proposal is heard.
    pub fn is_spoken(self) -> bool
        ensures { result ≡ spoken self }
    {
        self.proposal != 0
    }

    // Whether it is heard and good: no other can be backed, nor close a round.
    pub fn is_good(self) -> bool
        ensures { result ≡ good self }
    {
        2 <= self.proposal
    }

    // Whether no message of the round is heard.
    pub fn is_unheard(self) -> bool
        ensures { result ≡ unheard self }
    {
        self.proposal == 0 && self.prevotes == 0 && self.precommits == 0
    }

    // The seats whose votes of a type are heard.
    pub fn marks(self, v: Votes) -> u32
        ensures { result ≡ marks_of v self }
    {
        match v {
            Votes::Prevotes => self.prevotes,
            Votes::Precommits => self.precommits,
        }
    }
}
