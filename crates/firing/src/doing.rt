// What a kiosk does: the acts of 003's lines, each with at most one output.
ghost use Rattle.std.specs.Prelude.{◌<◌, ◌≤◌, ◌≡◌, true, false, ◌&&◌, ◌||◌, eqb, leb, if◌then◌else◌, IfSome};
ghost use Rattle.rules.specs.State.{most_rounds, entered, in_phase, standing, locking, with_step, with_asked, good};
ghost use Rattle.rules.specs.Kinds.{out_number};
ghost use Rattle.rules.specs.Doing.{asking, propose, vote, ask, start_round};
ghost use Rattle.rules.specs.Rules.{fire_36, fire_49, fire_found};
ghost use Rattle.rules.specs.Work.{take_in};
ghost use Rattle.rules.specs.InContracts.Ready.{Readable};
ghost use Rattle.firing.specs.InContracts.Acts.{does, does_for, does_hearing, rule_fits, backing, saying, moving};

use crate::Act;
use roll::{PlusOne, Round};
use rules::{
    Asked, Given, Heard, Held, Input, Output, OutputKind, Phase, Progress, Rule, Stand, Step, Votes,
};

// An output of the current round.
fn saying(progress: Progress, kind: OutputKind, valid: PlusOne, name: u64) -> Act
    ensures { result ≡ saying progress (out_number kind) valid.0 name }
{
    let round = progress.stand.round;
    let output = Output {
        kind: u8::from(kind),
        round,
        valid,
        name,
    };
    Act {
        progress,
        output: Some(output),
    }
}

fn moving(progress: Progress) -> Act
    ensures { result ≡ moving progress }
{
    Act {
        progress,
        output: None,
    }
}

// The progress with one part changed.

fn in_phase(progress: Progress, phase: Phase) -> Progress
    ensures { result ≡ in_phase phase progress }
{
    Progress { phase, ..progress }
}

fn at_step(mut progress: Progress, step: Step) -> Progress
    ensures { result ≡ standing (with_step step progress.stand) progress }
{
    progress.stand.step = step;
    progress
}

fn with_asked(mut progress: Progress, asked: Asked) -> Progress
    ensures { result ≡ standing (with_asked asked progress.stand) progress }
{
    progress.stand.asked = asked;
    progress
}

// Lines 12 and 13: a round as it is entered.
fn entering(progress: Progress, round: Round) -> Progress
    ensures { result ≡ standing (entered round.0) progress }
{
    let asked = Asked {
        propose: false,
        prevote: false,
        precommit: false,
    };
    let stand = Stand {
        round,
        step: Step::Propose,
        asked,
        backed: false,
    };
    Progress { stand, ..progress }
}

// Rule 36 has fired, and the sheet is valid.
fn backing(mut progress: Progress, sheet: Held) -> Progress
    ensures { result ≡ backing sheet progress }
{
    progress.stand.backed = true;
    progress.valid = sheet;
    progress
}

fn locking(progress: Progress, locked: Held) -> Progress
    ensures { result ≡ locking locked progress }
{
    Progress { locked, ..progress }
}

// The timers asked for, with one more.
fn asking(asked: Asked, timer: Step) -> Asked
    ensures { result ≡ asking timer asked }
{
    match timer {
        Step::Propose => Asked {
            propose: true,
            ..asked
        },
        Step::Prevote => Asked {
            prevote: true,
            ..asked
        },
        Step::Precommit => Asked {
            precommit: true,
            ..asked
        },
    }
}

// Lines 21, 35 and 48: ask for a timer of the current round.
#[tactic(auto, using(crate::proofs::Saying::asked))]
fn ask(progress: Progress, timer: Step) -> Act
    requires { progress.stand.round.0 < most_rounds }
    ensures does { does result progress (ask timer) }
    ensures round_lt_most_rounds { IfSome result.output (λ o. o.round.0 < most_rounds) }
{
    let asked = asking(progress.stand.asked, timer);
    saying(
        with_asked(progress, asked),
        OutputKind::Ask(timer),
        PlusOne(0),
        0,
    )
}

// Own messages of the current round. A vote is also a step.

#[tactic(auto, unfolding(rules::specs::Doing::propose, rules::specs::Log::message, rules::specs::Log::hear_proposal))]
fn propose(progress: Progress, valid: PlusOne, name: u64) -> Act
    requires { progress.stand.round.0 < most_rounds }
    ensures does { does result progress (propose valid.0 name) }
    ensures round_lt_most_rounds { IfSome result.output (λ o. o.round.0 < most_rounds) }
{
    saying(progress, OutputKind::Proposal, valid, name)
}

#[tactic(auto, using(crate::proofs::Saying::voted))]
fn vote(progress: Progress, v: Votes, name: u64) -> Act
    requires { progress.stand.round.0 < most_rounds }
    ensures does { does result progress (vote v name) }
    ensures round_lt_most_rounds { IfSome result.output (λ o. o.round.0 < most_rounds) }
{
    saying(
        at_step(progress, Step::from(v)),
        OutputKind::Vote(v),
        PlusOne(0),
        name,
    )
}

// Lines 15 to 18: the sheet to propose.
fn sheet_to_propose(valid: Held, offer: u64) -> u64
    ensures { result ≡ (if eqb valid.name 0 then offer else valid.name) }
{
    if valid.name == 0 { offer } else { valid.name }
}

// Lines 11 to 21.
#[tactic(auto, unfolding(rules::specs::Doing::start_round))]
fn start_round(progress: Progress, r: Round, given: Given) -> Act
    requires { (r.0 < most_rounds) × (1 ≤ given.roll.kiosks) }
    ensures does_for { does_for result given.roll progress (start_round given.offer r.0) }
    ensures round_lt_most_rounds { IfSome result.output (λ o. o.round.0 < most_rounds) }
{
    let name = sheet_to_propose(progress.valid, given.offer);
    let entered = entering(progress, r);
    if given.roll.proposer(r) == given.roll.own && name != 0 {
        return propose(entered, progress.valid.next, name);
    }
    ask(entered, Step::Propose)
}

// The sheet, where it is good and the lock allows it, being free or on this sheet; else nil.
fn prevoted(free: bool, locked: Held, h: Heard, sheet: u64) -> u64
    ensures { result ≡ (if good h && (free || eqb locked.name sheet) then sheet else 0) }
{
    if h.is_good() && (free || locked.name == sheet) {
        sheet
    } else {
        0
    }
}

// Lines 23 to 26: what to prevote.
fn vote_22(locked: Held, h: Heard, sheet: u64) -> u64
    ensures { result ≡ (if good h && (eqb locked.next.0 0 || eqb locked.name sheet) then sheet else 0) }
{
    prevoted(locked.next.0 == 0, locked, h, sheet)
}

// Lines 29 to 32.
fn vote_28(locked: Held, h: Heard, sheet: u64) -> u64
    ensures { result ≡ (if good h && (leb locked.next.0 h.valid || eqb locked.name sheet) then sheet else 0) }
{
    prevoted(u32::from(locked.next.0) <= h.valid, locked, h, sheet)
}

// Lines 37 to 43.
#[tactic(auto, unfolding(rules::specs::Rules::fire_36))]
fn back(progress: Progress, name: u64) -> Act
    requires { progress.stand.round.0 < most_rounds }
    ensures does { does result progress (fire_36 name) }
    ensures round_lt_most_rounds { IfSome result.output (λ o. o.round.0 < most_rounds) }
{
    let sheet = Held {
        next: PlusOne(progress.stand.round.0 + 1),
        name,
    };
    let backed = backing(progress, sheet);
    if progress.stand.step == Step::Prevote {
        return vote(locking(backed, sheet), Votes::Precommits, name);
    }
    moving(backed)
}

// Line 51.
#[tactic(auto, unfolding(rules::specs::Rules::fire_49, rules::specs::Log::message))]
fn settle(progress: Progress, round: Round, name: u64) -> Act
    requires { round.0 < most_rounds }
    ensures does { does result progress (fire_49 round.0 name) }
    ensures round_lt_most_rounds { IfSome result.output (λ o. o.round.0 < most_rounds) }
{
    let output = Output {
        kind: u8::from(OutputKind::Settled),
        round,
        valid: PlusOne(0),
        name,
    };
    Act {
        progress: in_phase(progress, Phase::Settled(round)),
        output: Some(output),
    }
}

// What a rule does, and nothing where none was found. `h` is what is heard of the current round, `sheet` the name of its proposal.
#[tactic(auto, unfolding(rules::specs::Rules::fire, rules::specs::Rules::vote_22, rules::specs::Rules::vote_28))]
pub fn act(progress: Progress, h: Heard, sheet: u64, rule: Option<Rule>, given: Given) -> Act
    requires { (progress.stand.round.0 < most_rounds) × (1 ≤ given.roll.kiosks) × IfSome rule rule_fits }
    ensures does_hearing { does_hearing result given.roll progress h sheet (fire_found rule given.offer) }
    ensures round_lt_most_rounds { IfSome result.output (λ o. o.round.0 < most_rounds) }
{
    let Some(rule) = rule else {
        return moving(progress);
    };
    match rule {
        Rule::Line22 => vote(
            progress,
            Votes::Prevotes,
            vote_22(progress.locked, h, sheet),
        ),
        Rule::Line28 => vote(
            progress,
            Votes::Prevotes,
            vote_28(progress.locked, h, sheet),
        ),
        Rule::Line34 => ask(progress, Step::Prevote),
        Rule::Line36(name) => back(progress, name),
        Rule::Line44 => vote(progress, Votes::Precommits, 0),
        Rule::Line47 => ask(progress, Step::Precommit),
        Rule::Line49(r, name) => settle(progress, r, name),
        Rule::Line55(r) => start_round(progress, r, given),
    }
}

// What start and the timers do before the rules: kinds 1, 5, 6 and 7. By number, as `take_in` says what each number does, one that is
// no kind too.
#[tactic(auto, unfolding(rules::specs::Work::take_in))]
pub fn begin(progress: Progress, i: Input, given: Given) -> Act
    requires { (progress.stand.round.0 < most_rounds) × (1 ≤ given.roll.kiosks) × (given.offer ≡ i.offer) × Readable i × ((leb 2 i.kind && leb i.kind 4) ≡ false) }
    ensures does_for { does_for result given.roll progress (take_in i) }
    ensures round_lt_most_rounds { IfSome result.output (λ o. o.round.0 < most_rounds) }
{
    match i.kind {
        Input::START => start_round(in_phase(progress, Phase::Running), Round(0), given),
        Input::TIMER_PROPOSE => vote(progress, Votes::Prevotes, 0),
        Input::TIMER_PREVOTE => vote(progress, Votes::Precommits, 0),
        _ => start_round(progress, Round(i.round.0 + 1), given),
    }
}
