// The work of a call: the input, and then the rules until none applies. The outputs are kept in order.
ghost use Rattle.std.specs.Prelude.{◌<◌, ◌≡◌, ◌&&◌, leb, IfSome};
ghost use Rattle.rules.specs.State.{most_rounds, state_of};
ghost use Rattle.rules.specs.Log.{desk};
ghost use Rattle.rules.specs.Rules.{first_rule, fire};
ghost use Rattle.rules.specs.Work.{fire_all};
ghost use Rattle.rules.specs.InContracts.Ready.{Ready};
ghost use Rattle.firing.specs.InContracts.Acts.{does_at, rule_fits};
ghost use Rattle.firing.specs.InContracts.Trails.{no_trail, seen, same_loans, Sums, CanFire, Workable, all_firings, LeavesWork, LeavesAfter};

use crate::doing::{act, begin};
use crate::{Act, Lent, Worked};
use applies::when::first_rule;
use rules::desk::Desk;
use rules::{Given, Input, Output, Progress, Rule, Sent, State};

impl Lent<'_> {
    // What the rules look at.
    fn desk<'b>(&'b self, progress: &'b Progress, given: &'b Given) -> Desk<'b>
        ensures roll { result.roll.now ≡ given.now.roll }
        ensures total { result.total ≡ given.now.total }
        ensures progress { result.progress.now ≡ progress.now }
        ensures log { result.log.now ≡ self.now.log.now }
        ensures table { result.table.now ≡ self.now.table.now }
    {
        Desk {
            roll: &given.roll,
            total: given.total,
            progress,
            log: self.log,
            table: self.table,
        }
    }

    // The first rule that applies.
    fn first_rule(&self, progress: &Progress, given: &Given) -> Option<Rule>
        requires { Ready (state_of given.now.roll progress.now self.now.log.now) self.now.table.now × Sums given.now }
        ensures { result ≡ first_rule (desk (state_of given.now.roll progress.now self.now.log.now) self.now.table.now) }
    {
        first_rule(&self.desk(progress, given))
    }

    // What a rule does, by what is heard of the current round.
    fn act_on(&self, progress: &Progress, rule: Rule, given: &Given) -> Act
        requires { Ready (state_of given.now.roll progress.now self.now.log.now) self.now.table.now × rule_fits rule × Sums given.now }
        ensures does_at { does_at result given.now.roll progress.now self.now.log.now self.now.table.now (fire rule given.now.offer) }
        ensures round_lt_most_rounds { IfSome result.output (λ o. o.round.0 < most_rounds) }
    {
        let r = progress.stand.round;
        let desk = self.desk(progress, given);
        act(
            *progress,
            desk.heard(r),
            desk.proposed(r),
            Some(rule),
            *given,
        )
    }
}

// The first rule that applies fires, and the list is begun again, until none applies. So many firings are left.
fn fire(so_far: &mut Worked, given: &Given, left: usize, lent: &mut Lent)
    requires { CanFire left given.now so_far.old.progress so_far.old.sent (seen lent.old) }
    ensures loans { same_loans lent.old lent.new }
    ensures leaves { LeavesAfter (fire_all left given.now.offer) given.now so_far.old.progress so_far.old.sent (seen lent.old) so_far.new (seen lent.new) }
{
    if left == 0 {
        return;
    }
    let Some(rule) = lent.first_rule(&so_far.progress, given) else {
        return;
    };
    let act = lent.act_on(&so_far.progress, rule, given);
    lent.hear_own(act.output, given.roll.own);
    so_far.progress = act.progress;
    so_far.sent = so_far.sent.send(act.output);
    fire(so_far, given, left - 1, lent);
}

// Whether an input is a message: a proposal or a vote. By number, as `take_in` says what each number does.
fn is_message(kind: u8) -> bool
    ensures { result ≡ (leb 2 kind && leb kind 4) }
{
    Input::PROPOSAL <= kind && kind <= Input::PRECOMMIT
}

// An accepted input's whole work: a message goes in the log, start and a timer do what they do, and then the rules. The trail is empty
// as it begins.
pub fn work(progress: Progress, i: Input, given: Given, lent: &mut Lent) -> Worked
    requires { Workable i given progress lent.old.log.now lent.old.table.now × (lent.old.trail ≡ no_trail) }
    ensures loans { same_loans lent.old lent.new }
    ensures leaves { LeavesWork i given progress lent.old.log.now lent.old.table.now result (seen lent.new) }
{
    if is_message(i.kind) {
        let message = Output {
            kind: i.kind - 1,
            round: i.round,
            valid: i.valid,
            name: i.name,
        };
        // A cast that only widens: with `usize::from`, which is a call, the proof does not close.
        lent.hear(message, i.sender as usize, i.verdict == 1);
        let mut heard = Worked {
            progress,
            sent: Sent::none(),
        };
        fire(&mut heard, &given, State::FIRINGS, lent);
        return heard;
    }
    let act = begin(progress, i, given);
    lent.hear_own(act.output, given.roll.own);
    let mut begun = Worked {
        progress: act.progress,
        sent: Sent::none().send(act.output),
    };
    fire(&mut begun, &given, State::FIRINGS, lent);
    begun
}
