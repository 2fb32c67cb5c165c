// What the questions of a call look at, lent: nothing of it changes while they are asked.
ghost use Rattle.std.specs.Prelude.{◌<◌, ◌≤◌, ◌≡◌, length, take, drop};
ghost use Rattle.roll.specs.Weighing.{most_kiosks};
ghost use Rattle.rules.specs.State.{most_rounds};
ghost use Rattle.rules.specs.Log.{table_length, votes_place, heard, proposed, power, power_for};
ghost use Rattle.rules.specs.Rules.{is_large};

use crate::places::{heard, proposed, votes_place};
use crate::{Heard, Log, Progress, Votes};
use roll::{Power, Roll, Round};

// The roll with its total power, what the kiosk holds of its height, and what it has heard. `Able` and `Weighs` are clauses and no invariant, since
// refusal 1 is asked of a desk that may be neither (`desk_fits`).
#[derive(Clone, Copy)]
pub struct Desk<'a> {
    pub roll: &'a Roll,
    pub total: Power,
    pub progress: &'a Progress,
    pub log: &'a Log,
    pub table: &'a [u64],
}

impl<'a> Desk<'a> {
    ghost use Rattle.rules.specs.InContracts.Lent.{shown, Able, Weighs};

    // What is heard of a round.
    pub fn heard(&self, r: Round) -> Heard
        requires { r.0 < most_rounds }
        ensures { result ≡ heard (shown self.now) r.0 }
    {
        heard(self.log, r)
    }

    // The name of a round's proposal.
    pub fn proposed(&self, r: Round) -> u64
        requires { (r.0 < most_rounds) × (length self.now.table.now ≡ table_length) }
        ensures { result ≡ proposed (shown self.now) r.0 }
    {
        proposed(self.table, r)
    }

    // The names of a round's votes, a place for each seat.
    pub fn voted(&self, v: Votes, r: Round) -> &'a [u64]
        requires { (r.0 < most_rounds) × (length self.now.table.now ≡ table_length) }
        ensures value { result.now ≡ take most_kiosks (drop (votes_place v r.0) self.now.table.now) }
        ensures len { length result.now ≡ most_kiosks }
    {
        let at = votes_place(v, r);
        &self.table[at..at + Roll::MOST]
    }

    // The power of the seats whose votes of a type are heard of a round.
    #[tactic(auto, unfolding(crate::specs::Log::power))]
    pub fn power(&self, v: Votes, r: Round) -> Power
        requires { Able self.now × (r.0 < most_rounds) }
        ensures { result.0 ≡ power v (shown self.now) r.0 }
    {
        self.roll.weigh(self.heard(r).marks(v))
    }

    // Whether they are large.
    pub fn is_large(&self, v: Votes, r: Round) -> bool
        requires { Weighs self.now × (r.0 < most_rounds) }
        ensures { let d = shown self.now in result ≡ is_large d (power v d r.0) }
    {
        self.power(v, r).is_large(self.total)
    }

    // Whether those whose vote is for a name are large, where the votes for any name are known to be: these are not weighed again.
    pub fn is_large_by_name(&self, v: Votes, r: Round, name: u64) -> bool
        requires { Weighs self.now × (r.0 < most_rounds) }
        ensures { let d = shown self.now in result ≡ is_large d (power_for v d r.0 name) }
    {
        self.roll
            .weigh_named(self.heard(r).marks(v), self.voted(v, r), name)
            .is_large(self.total)
    }

    // The same, where nothing is known of them. The names are read only where the votes for any name are large.
    pub fn is_large_for(&self, v: Votes, r: Round, name: u64) -> bool
        requires { Weighs self.now × (r.0 < most_rounds) }
        ensures { let d = shown self.now in result ≡ is_large d (power_for v d r.0 name) }
    {
        self.roll
            .is_large_named(self.heard(r).marks(v), self.voted(v, r), name, self.total)
    }
}
