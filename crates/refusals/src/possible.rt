// Refusal 1: whether a voting state and a table are possible.
ghost use Rattle.std.specs.Prelude.{◌^◌, ◌<◌, ◌≤◌, ◌≡◌, ltb, length, fold, bit_or};
ghost use Rattle.words.specs.Choice.{all_below, all_zero};
ghost use Rattle.roll.specs.Weighing.{most_kiosks, total_of};
ghost use Rattle.rules.specs.State.{most_rounds, unheard};
ghost use Rattle.rules.specs.Log.{heard, table_length};
ghost use Rattle.rules.specs.InContracts.Lent.{shown, Weighs};
ghost use Rattle.refusals.specs.Possible.{round_fits, held_fits, fresh_fits, at_rest, desk_fits};
ghost use Rattle.refusals.specs.InContracts.Parts.{numbers_fit};

use applies::when::first_rule;
use roll::Round;
use rules::desk::Desk;
use rules::{Held, State};

// Whether a sheet is held from a round up to the current one, with a name; or none is.
fn held_fits(now: Round, h: Held) -> bool
    ensures { result ≡ held_fits now.0 h }
{
    u16::from(h.next.0) <= u16::from(now.0) + 1 && (h.next.0 == 0) == (h.name == 0)
}

// Whether each seat marked is on a roll of so many kiosks.
fn on_roll(kiosks: usize, marks: u32) -> bool
    requires { kiosks ≤ most_kiosks }
    ensures { result ≡ ltb marks (2 ^ kiosks) }
{
    u64::from(marks) < 1 << kiosks
}

// Whether what is heard of a round may be: votes of seats on the roll, a proposal with a name and a valid round before its own.
#[tactic(auto, using(crate::proofs::Judging::joint_below), unfolding(crate::specs::Possible::round_fits))]
fn round_fits(d: &Desk, r: Round) -> bool
    requires { (d.now.roll.now.kiosks ≤ most_kiosks) × (length d.now.table.now ≡ table_length) × (r.0 < most_rounds) }
    ensures { result ≡ round_fits (shown d.now) r.0 }
{
    let h = d.heard(r);
    on_roll(d.roll.kiosks, h.prevotes | h.precommits)
        && (!h.is_spoken() || (d.proposed(r) != 0 && h.valid <= u32::from(r.0)))
}

fn rounds_fit(d: &Desk) -> bool
    requires { (d.now.roll.now.kiosks ≤ most_kiosks) × (length d.now.table.now ≡ table_length) }
    ensures { result ≡ all_below most_rounds (λ r. round_fits (shown d.now) r) }
{
    for r in 0..State::ROUNDS {
        if !round_fits(d, Round(r as u8)) {
            return false;
        }
    }
    true
}

fn all_unheard(d: &Desk) -> bool
    ensures { result ≡ all_below most_rounds (λ r. unheard (heard (shown d.now) r)) }
{
    for r in 0..State::ROUNDS {
        if !d.heard(Round(r as u8)).is_unheard() {
            return false;
        }
    }
    true
}

// The numbers of a table, joined: without an early return, many are read at once.
fn joined(table: &[u64]) -> u64
    ensures { result ≡ fold bit_or 0 table.now }
{
    table.iter().fold(0, |any, name| any | *name)
}

#[tactic(auto, using(crate::proofs::Judging::joint_zero))]
fn all_zero(table: &[u64]) -> bool
    ensures { result ≡ all_zero table.now }
{
    joined(table) == 0
}

// Before start nothing is heard or held.
#[tactic(auto, unfolding(crate::specs::Possible::fresh_fits))]
fn fresh_fits(d: &Desk) -> bool
    ensures { result ≡ fresh_fits (shown d.now) }
{
    all_unheard(d)
        && all_zero(d.table)
        && d.progress.stand.round == Round(0)
        && d.progress.locked.next.0 == 0
        && d.progress.valid.next.0 == 0
}

// Once started, no rule may apply.
#[tactic(auto, unfolding(crate::specs::Possible::at_rest))]
fn at_rest(d: &Desk) -> bool
    requires { Weighs d.now }
    ensures { result ≡ at_rest (shown d.now) }
{
    if d.progress.phase.is_fresh() {
        fresh_fits(d)
    } else {
        first_rule(d).is_none()
    }
}

// The numbers that the other tests rely on.
fn numbers_fit(d: &Desk) -> bool
    requires { d.now.roll.now.kiosks ≤ most_kiosks → d.now.total.0 ≡ total_of d.now.roll.now }
    ensures { result ≡ numbers_fit (shown d.now) }
{
    d.roll.fits_with(d.total)
        && d.roll.own_fits()
        && d.table.len() == State::TABLE
        && usize::from(d.progress.stand.round.0) < State::ROUNDS
        && usize::from(d.progress.phase.settled_round()) < State::ROUNDS
}

// The voting state and the table.
#[tactic(auto, unfolding(crate::specs::Possible::desk_fits))]
pub fn desk_fits(d: &Desk) -> bool
    requires { d.now.roll.now.kiosks ≤ most_kiosks → d.now.total.0 ≡ total_of d.now.roll.now }
    ensures { result ≡ desk_fits (shown d.now) }
{
    if !numbers_fit(d) {
        return false;
    }
    let round = d.progress.stand.round;
    rounds_fit(d)
        && held_fits(round, d.progress.locked)
        && held_fits(round, d.progress.valid)
        && at_rest(d)
}
