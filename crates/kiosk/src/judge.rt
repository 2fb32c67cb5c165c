// Refusals 1 to 11 of a kiosk, room aside.
ghost use Rattle.std.specs.Prelude.{◌≤◌, ◌≡◌, true, ◌&&◌, leb};
ghost use Rattle.roll.specs.Weighing.{most_kiosks};
ghost use Rattle.rules.specs.InContracts.Lent.{shown};
ghost use Rattle.journal.specs.Layout.{header_length};
ghost use Rattle.refusals.specs.Possible.{desk_fits};
ghost use Rattle.kiosk.specs.Judged.{judged};
ghost use Rattle.kiosk.specs.InContracts.Lent.{kiosk_of};

use crate::Course;
use journal::header::header_length;
use refusals::Answer;
use refusals::refuse::refused_input;
use roll::Roll;
use rules::Input;
use rules::desk::Desk;

// The used length and the last group's start, in an area of so many bytes, of a kiosk with this roll.
fn used_fits(roll: Roll, course: Course, area: usize) -> bool
    requires { roll.kiosks ≤ most_kiosks }
    ensures { result ≡ (leb (header_length roll) course.used && leb course.used area && leb course.last course.used) }
{
    header_length(roll) <= course.used && course.used <= area && course.last <= course.used
}

// Refusals 1 to 11, room aside, where the voting state and the table are known to be possible: the journal has `area` bytes.
// The course has the desk's progress again: its other two fields alone would be one more type, made at each of the three calls.
#[tactic(auto, using(refusals::proofs::Judging::desk_ready), unfolding(crate::specs::Judged::judged, crate::specs::Judged::used_fits))]
pub fn judged_possible(d: &Desk, course: Course, area: usize, i: Input) -> Answer
    requires { desk_fits (shown d.now) ≡ true }
    ensures { result ≡ judged area (kiosk_of d.now.roll.now course d.now.log.now) (shown d.now) i }
{
    if !used_fits(*d.roll, course, area) {
        return Answer::Impossible;
    }
    refused_input(d, i)
}
