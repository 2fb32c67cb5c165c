// The timers that are open: those of the current round whose input would be accepted now.
ghost use Rattle.std.specs.Prelude.{◌≡◌, true, ◌++◌};
ghost use Rattle.rules.specs.Kinds.{timer_in};
ghost use Rattle.rules.specs.State.{state_of};
ghost use Rattle.rules.specs.Log.{desk};
ghost use Rattle.rules.specs.Sent.{packed};
ghost use Rattle.rules.specs.InContracts.Lent.{shown};
ghost use Rattle.rules.specs.InContracts.Ready.{so_far};
ghost use Rattle.refusals.specs.Possible.{desk_fits};
ghost use Rattle.kiosk.specs.InContracts.Lent.{kiosk_of};
ghost use Rattle.again.specs.Again.{is_open, ask_again, open_timers};
ghost use Rattle.again.specs.InContracts.Lists.{Asks, Takes};

use kiosk::Course;
use kiosk::judge::judged_possible;
use roll::{Height, PlusOne, Roll, Round};
use rules::desk::Desk;
use rules::{Input, InputKind, Log, Output, OutputKind, Sent, Step};

// The input of a timer of the current round.
fn timer_now(height: Height, round: Round, step: Step) -> Input
    ensures { result ≡ record { kind = timer_in step; height = height; sender = 0; round = round; valid = record { 0 = 0 }; verdict = 0; name = 0; offer = 0 } }
{
    Input {
        kind: u8::from(InputKind::Timer(step)),
        height,
        sender: 0,
        round,
        valid: PlusOne(0),
        verdict: 0,
        name: 0,
        offer: 0,
    }
}

fn is_open(d: &Desk, course: Course, step: Step) -> bool
    requires { Asks d.now course }
    ensures { result ≡ is_open (kiosk_of d.now.roll.now course d.now.log.now) d.now.table.now step }
{
    let i = timer_now(d.roll.height, course.progress.stand.round, step);
    judged_possible(d, course, course.used, i).is_accepted()
}

// A list, and after it the output that asks for a timer again, where that is open.
fn with_timer(list: Sent, d: &Desk, course: Course, step: Step) -> Sent
    requires { Asks d.now course × Takes list (ask_again (kiosk_of d.now.roll.now course d.now.log.now) d.now.table.now step) }
    ensures { result ≡ packed (so_far list ++ ask_again (kiosk_of d.now.roll.now course d.now.log.now) d.now.table.now step) }
{
    let o = Output {
        kind: u8::from(OutputKind::Ask(step)),
        round: course.progress.stand.round,
        valid: PlusOne(0),
        name: 0,
    };
    list.send(is_open(d, course, step).then_some(o))
}

// All of them, by kind. The parts of the desk come apart: the kiosk that holds them has one caller, and the desk is made here.
pub fn open_timers(course: Course, roll: Roll, log: &Log, table: &[u64]) -> Sent
    requires { desk_fits (desk (state_of roll course.progress log.now) table.now) ≡ true }
    ensures { result ≡ packed (open_timers (kiosk_of roll course log.now) table.now) }
{
    let d = Desk {
        roll: &roll,
        total: roll.whole(),
        progress: &course.progress,
        log,
        table,
    };
    let first = with_timer(Sent::none(), &d, course, Step::Propose);
    let second = with_timer(first, &d, course, Step::Prevote);
    with_timer(second, &d, course, Step::Precommit)
}
