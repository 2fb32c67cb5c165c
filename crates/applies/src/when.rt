// When each rule applies, and which is the first. What is cheap to ask is asked before anything is weighed, and the names of votes are
// read only where the votes under any name are large.
ghost use Rattle.std.specs.Prelude.{◌<◌, ◌≤◌, ◌≡◌, true, false, ◌&&◌, ◌||◌, not, eqb, if◌then◌else◌, Some, None, MatchOption};
ghost use Rattle.std.specs.Int.Bits.{bit_or};
ghost use Rattle.words.specs.Choice.{lowest_below};
ghost use Rattle.words.specs.Marks.{mark};
ghost use Rattle.roll.specs.Weighing.{most_kiosks};
ghost use Rattle.rules.specs.State.{most_rounds, is_propose, is_prevote, spoken, good};
ghost use Rattle.rules.specs.Log.{heard};
ghost use Rattle.rules.specs.Doing.{current, step};
ghost use Rattle.rules.specs.Rules.{backed_sheet, closing_sheet, applies_22, applies_28, applies_36, applies_44, applies_47, calls, from_34, from_47, from_49, first_rule};
ghost use Rattle.rules.specs.InContracts.Lent.{shown, Able, Weighs};
ghost use Rattle.applies.specs.InContracts.Found.{sheet_for, named, is_lowest_closing, is_highest_calling};

use roll::Round;
use rules::desk::Desk;
use rules::{Heard, Rule, State, Step, Votes};
use words::marks::{either, with_mark};

// Line 22: the round's proposal, with valid round -1.
#[tactic(auto, unfolding(rules::specs::Rules::applies_22))]
fn applies_22(d: &Desk) -> bool
    requires { Able d.now }
    ensures { result ≡ applies_22 (shown d.now) }
{
    let stand = &d.progress.stand;
    let h = d.heard(stand.round);
    stand.step == Step::Propose && h.is_spoken() && h.valid == 0
}

// Line 28: the round's proposal, with a valid round before this one whose prevotes for it are large.
#[tactic(auto, unfolding(rules::specs::Rules::applies_28))]
fn applies_28(d: &Desk) -> bool
    requires { Weighs d.now }
    ensures { result ≡ applies_28 (shown d.now) }
{
    let stand = &d.progress.stand;
    let h = d.heard(stand.round);
    stand.step == Step::Propose
        && h.is_spoken()
        && 1 <= h.valid
        && h.valid <= u32::from(stand.round.0)
        && d.is_large_for(
            Votes::Prevotes,
            Round((h.valid - 1) as u8),
            d.proposed(stand.round),
        )
}

// Lines 34, 36 and 44, all but their weighing: whether the round's prevotes can make one of them apply.
fn heeds_prevotes(d: &Desk) -> bool
    requires { Able d.now }
    ensures { let s = shown d.now in result ≡ (is_prevote (step s) || (not (is_propose (step s)) && not s.state.progress.stand.backed && good (heard s (current s)))) }
{
    let stand = &d.progress.stand;
    match stand.step {
        Step::Propose => false,
        Step::Prevote => true,
        Step::Precommit => !stand.backed && d.heard(stand.round).is_good(),
    }
}

// Line 34, all but its weighing.
fn awaits_prevotes(d: &Desk) -> bool
    ensures { let s = shown d.now in result ≡ (is_prevote (step s) && not s.state.progress.stand.asked.prevote) }
{
    let stand = &d.progress.stand;
    stand.step == Step::Prevote && !stand.asked.prevote
}

// The sheet of a round's good proposal, where large votes of a type are for it. Asked where the votes under any name are large.
#[inline(always)]
fn large_sheet(d: &Desk, v: Votes, r: Round) -> Option<u64>
    requires { Weighs d.now × (r.0 < most_rounds) }
    ensures { result ≡ named (sheet_for v (shown d.now) r.0) }
{
    if !d.heard(r).is_good() {
        return None;
    }
    let name = d.proposed(r);
    if name != 0 && d.is_large_by_name(v, r, name) {
        Some(name)
    } else {
        None
    }
}

// Line 36: the sheet to back, where none is backed yet.
#[tactic(auto, unfolding(rules::specs::Rules::applies_36))]
fn sheet_to_back(d: &Desk) -> Option<u64>
    requires { Weighs d.now }
    ensures { let s = shown d.now in result ≡ (if applies_36 s then Some (backed_sheet s) else None) }
{
    let stand = &d.progress.stand;
    if stand.step == Step::Propose || stand.backed {
        return None;
    }
    large_sheet(d, Votes::Prevotes, stand.round)
}

// Line 44.
#[tactic(auto, unfolding(rules::specs::Rules::applies_44))]
fn applies_44(d: &Desk) -> bool
    requires { Weighs d.now }
    ensures { result ≡ applies_44 (shown d.now) }
{
    let stand = &d.progress.stand;
    stand.step == Step::Prevote && d.is_large_by_name(Votes::Prevotes, stand.round, 0)
}

// The rules that weigh the prevotes of the current round: 34, 36 and 44.
fn prevote_rule(d: &Desk) -> Option<Rule>
    requires { Weighs d.now }
    ensures { let s = shown d.now in MatchOption result (from_34 s ≡ from_47 s) (λ rule. from_34 s ≡ Some rule) }
{
    if !heeds_prevotes(d) {
        return None;
    }
    if !d.is_large(Votes::Prevotes, d.progress.stand.round) {
        return None;
    }
    if awaits_prevotes(d) {
        return Some(Rule::Line34);
    }
    if let Some(name) = sheet_to_back(d) {
        return Some(Rule::Line36(name));
    }
    if applies_44(d) {
        return Some(Rule::Line44);
    }
    None
}

// Line 47.
#[tactic(auto, unfolding(rules::specs::Rules::applies_47))]
fn applies_47(d: &Desk) -> bool
    requires { Weighs d.now }
    ensures { result ≡ applies_47 (shown d.now) }
{
    let stand = &d.progress.stand;
    !stand.asked.precommit && d.is_large(Votes::Precommits, stand.round)
}

// Line 49 at a round: the sheet that can be settled. A round without a good proposal is passed before anything is weighed.
#[inline(always)]
fn closing_sheet(d: &Desk, r: Round) -> Option<u64>
    requires { Weighs d.now × (r.0 < most_rounds) }
    ensures { result ≡ named (closing_sheet (shown d.now) r.0) }
{
    if d.heard(r).is_good() && d.is_large(Votes::Precommits, r) {
        large_sheet(d, Votes::Precommits, r)
    } else {
        None
    }
}

// The first round with a good proposal, in a loop that does nothing else; the number of rounds where there is none.
fn first_good(d: &Desk) -> usize
    requires { Weighs d.now }
    ensures most { result ≤ most_rounds }
    ensures none_before { lowest_below result (λ r. not (eqb (closing_sheet (shown d.now) r) 0)) ≡ result }
{
    for r in 0..State::ROUNDS {
        if d.heard(Round(r as u8)).is_good() {
            return r;
        }
    }
    State::ROUNDS
}

// Line 49: the lowest round with a sheet that can be settled, and the sheet.
fn closing(d: &Desk) -> Option<(Round, u64)>
    requires { Weighs d.now }
    ensures { is_lowest_closing (shown d.now) result }
{
    for r in first_good(d)..State::ROUNDS {
        let round = Round(r as u8);
        if let Some(sheet) = closing_sheet(d, round) {
            return Some((round, sheet));
        }
    }
    None
}

// The senders of any message of a round, each marked once: those of its votes, and of its proposal the seat whose turn it is.
fn senders(h: Heard, turn: usize) -> u32
    requires { turn < most_kiosks }
    ensures { result ≡ (if spoken h then mark (bit_or h.prevotes h.precommits) turn else bit_or h.prevotes h.precommits) }
{
    let votes = either(h.prevotes, h.precommits);
    if h.is_spoken() {
        with_mark(votes, turn)
    } else {
        votes
    }
}

// Line 55 at a round ahead: whether its messages have some power.
#[tactic(auto, unfolding(rules::specs::Rules::calls))]
fn calls(d: &Desk, r: Round) -> bool
    requires { Weighs d.now × (r.0 < most_rounds) × (d.now.progress.now.stand.round.0 < r.0) }
    ensures { result ≡ calls (shown d.now) r.0 }
{
    let h = d.heard(r);
    !h.is_unheard()
        && d.roll
            .weigh(senders(h, d.roll.proposer(r)))
            .is_some(d.total)
}

// Line 55: the highest round ahead whose messages have some power.
fn calling(d: &Desk) -> Option<Round>
    requires { Weighs d.now }
    ensures { is_highest_calling (shown d.now) result }
{
    for r in (usize::from(d.progress.stand.round.0) + 1..State::ROUNDS).rev() {
        let round = Round(r as u8);
        if calls(d, round) {
            return Some(round);
        }
    }
    None
}

// The rules that look at the whole log: 49 and 55.
fn from_49(d: &Desk) -> Option<Rule>
    requires { Weighs d.now }
    ensures { result ≡ from_49 (shown d.now) }
{
    if let Some((round, sheet)) = closing(d) {
        return Some(Rule::Line49(round, sheet));
    }
    calling(d).map(Rule::Line55)
}

// The rules from 34 on.
fn from_34(d: &Desk) -> Option<Rule>
    requires { Weighs d.now }
    ensures { result ≡ from_34 (shown d.now) }
{
    if let Some(rule) = prevote_rule(d) {
        return Some(rule);
    }
    if applies_47(d) {
        return Some(Rule::Line47);
    }
    from_49(d)
}

// The first rule that applies.
#[tactic(auto, unfolding(rules::specs::Rules::first_rule))]
pub fn first_rule(d: &Desk) -> Option<Rule>
    requires { Weighs d.now }
    ensures { result ≡ first_rule (shown d.now) }
{
    if !d.progress.phase.is_running() {
        return None;
    }
    if applies_22(d) {
        return Some(Rule::Line22);
    }
    if applies_28(d) {
        return Some(Rule::Line28);
    }
    from_34(d)
}
