// The refusals 2 to 11: those that look at the voting state, the table and the input.
ghost use Rattle.std.specs.Prelude.{◌<◌, ◌≡◌};
ghost use Rattle.roll.specs.Weighing.{most_kiosks};
ghost use Rattle.rules.specs.State.{most_rounds};
ghost use Rattle.rules.specs.Kinds.{proposal_in, vote_in, timer_in, in_number};
ghost use Rattle.rules.specs.InContracts.Lent.{shown, Able};
ghost use Rattle.refusals.specs.Refusals.{proposal_fits, vote_fits, timer_fits, start_fits, kind_fits, fields_fit, timer_due, refused_from_6, refused_input};
ghost use Rattle.refusals.specs.InContracts.Parts.{heard_already};

use crate::Answer;
use rules::desk::Desk;
use rules::{Input, InputKind, State, Step, Votes};
use words::marks::is_marked;

// The fields of each kind.

#[tactic(auto, unfolding(crate::specs::Refusals::proposal_fits))]
fn proposal_fits(i: Input) -> bool
    ensures { result ≡ proposal_fits i }
{
    i.name != 0 && i.valid.0 <= i.round.0 && i.verdict <= 1
}

#[tactic(auto, unfolding(crate::specs::Refusals::vote_fits))]
fn vote_fits(i: Input) -> bool
    ensures { result ≡ vote_fits i }
{
    i.valid.0 == 0 && i.verdict == 0
}

#[tactic(auto, unfolding(crate::specs::Refusals::timer_fits))]
fn timer_fits(i: Input) -> bool
    ensures { result ≡ timer_fits i }
{
    i.sender == 0 && i.name == 0 && i.valid.0 == 0 && i.verdict == 0
}

#[tactic(auto, unfolding(crate::specs::Refusals::start_fits))]
fn start_fits(i: Input) -> bool
    ensures { result ≡ start_fits i }
{
    timer_fits(i) && i.round.0 == 0
}

#[tactic(auto, unfolding(crate::specs::Refusals::kind_fits))]
fn kind_fits(kind: InputKind, i: Input) -> bool
    requires { in_number kind ≡ i.kind }
    ensures { result ≡ kind_fits i }
{
    match kind {
        InputKind::Start => start_fits(i),
        InputKind::Proposal => proposal_fits(i),
        InputKind::Vote(_) => vote_fits(i),
        InputKind::Timer(_) => timer_fits(i),
    }
}

#[tactic(auto, unfolding(crate::specs::Refusals::fields_fit))]
fn fields_fit(n: usize, kind: InputKind, i: Input) -> bool
    requires { in_number kind ≡ i.kind }
    ensures { result ≡ fields_fit n most_rounds i }
{
    usize::from(i.sender) < n && usize::from(i.round.0) < State::ROUNDS && kind_fits(kind, i)
}

// The answer to a message whose place is heard, by whether that holds the same.
fn heard_already(same: bool) -> Answer
    ensures { result ≡ heard_already same }
{
    if same {
        Answer::HeardSame
    } else {
        Answer::HeardOther
    }
}

// Refusals 6 to 9 of a proposal.
#[tactic(auto, unfolding(crate::specs::Refusals::refused_from_6, crate::specs::Refusals::place_heard, crate::specs::Refusals::same_heard))]
fn refused_proposal(d: &Desk, i: Input) -> Answer
    requires { Able d.now × (i.round.0 < most_rounds) × (i.sender < most_kiosks) × (i.kind ≡ proposal_in) }
    ensures { result ≡ refused_from_6 (shown d.now) i }
{
    let seat = usize::from(i.sender);
    if seat == d.roll.own {
        return Answer::OwnNumber;
    }
    if seat != d.roll.proposer(i.round) {
        return Answer::NotProposer;
    }
    let h = d.heard(i.round);
    if h.is_spoken() {
        return heard_already(d.proposed(i.round) == i.name && h.valid == u32::from(i.valid.0));
    }
    Answer::Accepted
}

// Refusals 6, 8 and 9 of a vote.
#[tactic(auto, unfolding(crate::specs::Refusals::refused_from_6, crate::specs::Refusals::place_heard, crate::specs::Refusals::same_heard))]
fn refused_vote(d: &Desk, v: Votes, i: Input) -> Answer
    requires { Able d.now × (i.round.0 < most_rounds) × (i.sender < most_kiosks) × (i.kind ≡ vote_in v) }
    ensures { result ≡ refused_from_6 (shown d.now) i }
{
    let seat = usize::from(i.sender);
    if seat == d.roll.own {
        return Answer::OwnNumber;
    }
    if is_marked(d.heard(i.round).marks(v), seat) {
        return heard_already(d.voted(v, i.round)[seat] == i.name);
    }
    Answer::Accepted
}

// Whether a timer is of the current round and step, and was asked for in this round.
#[tactic(auto, unfolding(crate::specs::Refusals::timer_due))]
fn timer_due(d: &Desk, step: Step, i: Input) -> bool
    requires { i.kind ≡ timer_in step }
    ensures { result ≡ timer_due (shown d.now) i }
{
    let stand = &d.progress.stand;
    i.round == stand.round
        && match step {
            Step::Propose => stand.step == Step::Propose && stand.asked.propose,
            Step::Prevote => stand.step == Step::Prevote && stand.asked.prevote,
            Step::Precommit => stand.asked.precommit,
        }
}

// Refusals 10 and 11 of a timer.
#[tactic(auto, unfolding(crate::specs::Refusals::refused_from_6, crate::specs::Refusals::place_heard, crate::specs::Refusals::same_heard))]
fn refused_timer(d: &Desk, step: Step, i: Input) -> Answer
    requires { (i.round.0 < most_rounds) × (i.kind ≡ timer_in step) }
    ensures { result ≡ refused_from_6 (shown d.now) i }
{
    if !timer_due(d, step, i) {
        return Answer::TimerNotDue;
    }
    if step == Step::Precommit && usize::from(i.round.0) + 1 == State::ROUNDS {
        return Answer::LastRound;
    }
    Answer::Accepted
}

// Refusals 6 to 11, of an input whose fields are within the rules.
#[tactic(auto, unfolding(crate::specs::Refusals::refused_from_6, crate::specs::Refusals::place_heard))]
fn refused_from_6(d: &Desk, kind: InputKind, i: Input) -> Answer
    requires { Able d.now × (i.round.0 < most_rounds) × (i.sender < most_kiosks) × (in_number kind ≡ i.kind) }
    ensures { result ≡ refused_from_6 (shown d.now) i }
{
    match kind {
        InputKind::Start => Answer::Accepted,
        InputKind::Proposal => refused_proposal(d, i),
        InputKind::Vote(v) => refused_vote(d, v, i),
        InputKind::Timer(step) => refused_timer(d, step, i),
    }
}

// Refusals 2 to 11.
#[tactic(auto, using(crate::proofs::Judging::kind_unknown, crate::proofs::Judging::round_fit, crate::proofs::Judging::sender_fit), unfolding(crate::specs::Refusals::refused_input))]
pub fn refused_input(d: &Desk, i: Input) -> Answer
    requires { Able d.now }
    ensures { result ≡ refused_input (shown d.now) i }
{
    let phase = d.progress.phase;
    if phase.is_settled() {
        return Answer::AlreadySettled;
    }
    if phase.is_fresh() != (i.kind == Input::START) {
        return Answer::OutOfOrder;
    }
    if i.height != d.roll.height {
        return Answer::OtherHeight;
    }
    let Ok(kind) = InputKind::try_from(i.kind) else {
        return Answer::BadField;
    };
    if !fields_fit(d.roll.kiosks, kind, i) {
        return Answer::BadField;
    }
    refused_from_6(d, kind, i)
}
