// The state and its twin.
ghost use Rattle.std.specs.Prelude.{◌≡◌};
ghost use Rattle.kiosk.specs.InContracts.Lent as lent;
ghost use Rattle.twins.specs.Twins.{phase_of, phase_number, step_of, holds, kiosk_of, roll_of, flat_kiosk};
ghost use Rattle.twins.specs.InContracts.Parts.{course_of, bare};

use flat::FlatKiosk;
use kiosk::Course;
use roll::{Height, PlusOne, Roll, Round};
use rules::{Asked, Held, Log, Phase, Progress, Stand, Step};

// A phase and a step by number. No `TryFrom`: `holds` has refused other numbers, and the definitions take any for the last.

fn phase_of(phase: u8, settled: u8) -> Phase
    ensures { result ≡ phase_of phase settled }
{
    match phase {
        0 => Phase::Fresh,
        1 => Phase::Running,
        _ => Phase::Settled(Round(settled)),
    }
}

fn phase_number(p: Phase) -> u8
    ensures { result ≡ phase_number p }
{
    match p {
        Phase::Fresh => 0,
        Phase::Running => 1,
        Phase::Settled(_) => 2,
    }
}

fn step_of(step: u8) -> Step
    ensures { result ≡ step_of step }
{
    match step {
        0 => Step::Propose,
        1 => Step::Prevote,
        _ => Step::Precommit,
    }
}

// Whether a kiosk's types can hold what the twin says.
#[tactic(auto, unfolding(crate::specs::Twins::holds))]
pub fn holds(f: FlatKiosk) -> bool
    ensures { result ≡ holds f }
{
    f.phase <= 2
        && (f.phase == 2 || f.settled == 0)
        && f.step <= 2
        && f.asked_propose <= 1
        && f.asked_prevote <= 1
        && f.asked_precommit <= 1
        && f.backed <= 1
}

pub fn roll_of(f: FlatKiosk) -> Roll
    ensures { result ≡ (kiosk_of f).state.roll }
{
    // An array field goes into the literal by way of a name: the check has no rule for `powers: f.powers`.
    let powers = f.powers;
    Roll {
        kiosks: f.kiosks,
        powers,
        own: f.own,
        height: Height(f.height),
    }
}

fn progress_of(f: FlatKiosk) -> Progress
    ensures { result ≡ (kiosk_of f).state.progress }
{
    Progress {
        phase: phase_of(f.phase, f.settled),
        stand: Stand {
            round: Round(f.round),
            step: step_of(f.step),
            asked: Asked {
                propose: f.asked_propose == 1,
                prevote: f.asked_prevote == 1,
                precommit: f.asked_precommit == 1,
            },
            backed: f.backed == 1,
        },
        locked: Held {
            next: PlusOne(f.locked_next),
            name: f.locked_name,
        },
        valid: Held {
            next: PlusOne(f.valid_next),
            name: f.valid_name,
        },
    }
}

pub fn course_of(f: FlatKiosk) -> Course
    ensures { result ≡ course_of f }
{
    Course {
        progress: progress_of(f),
        used: f.used,
        last: f.last,
    }
}

// A twin with this roll and log; its other numbers are 0.
pub fn bare(roll: Roll, log: Log) -> FlatKiosk
    ensures { result ≡ bare roll log }
{
    let Roll {
        kiosks,
        powers,
        own,
        height,
    } = roll;
    FlatKiosk {
        kiosks,
        own,
        used: 0,
        last: 0,
        locked_name: 0,
        valid_name: 0,
        height: height.0,
        powers,
        phase: 0,
        settled: 0,
        round: 0,
        step: 0,
        asked_propose: 0,
        asked_prevote: 0,
        asked_precommit: 0,
        backed: 0,
        locked_next: 0,
        valid_next: 0,
        log,
    }
}

// The twin with this course in place of its own. Its roll and its log stay where they are, so they are not copied once more.
pub fn with_course(mut f: FlatKiosk, course: Course) -> FlatKiosk
    ensures { result ≡ flat_kiosk (lent.kiosk_of (roll_of f) course f.log) }
{
    let Progress {
        phase,
        stand,
        locked,
        valid,
    } = course.progress;
    f.used = course.used;
    f.last = course.last;
    f.locked_name = locked.name;
    f.valid_name = valid.name;
    f.phase = phase_number(phase);
    f.settled = phase.settled_round();
    f.round = stand.round.0;
    f.step = stand.step as u8;
    f.asked_propose = u8::from(stand.asked.propose);
    f.asked_prevote = u8::from(stand.asked.prevote);
    f.asked_precommit = u8::from(stand.asked.precommit);
    f.backed = u8::from(stand.backed);
    f.locked_next = locked.next.0;
    f.valid_next = valid.next.0;
    f
}
