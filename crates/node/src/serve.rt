// A kiosk on its file: lines in, answers out.
use crate::files::{Loaded, load, past_streams};
use crate::tell;
use crate::tell::Unusable;
use disk::Lost;
use kiosk::Kiosk;
use lines::input_of;
use refusals::Answer;
use rules::State;
use serving::Start;
use std::fs::{File, OpenOptions};
use std::io;
use std::io::Read;
use std::rt::Runtime;

// The longest line that is read, its newline aside.
const LINE: usize = 127;

// No run reads so many lines, and no line so many bytes.
const MOST: u64 = 1000000000000;

// The next line of standard input.
#[derive(Clone, Copy)]
enum Line<'a> {
    // as it is, its newline aside
    Whole(&'a [u8]),
    // longer than the room for it
    Long,
    // one that the input ends in
    Cut,
    // none: the input has ended
    End,
}

fn next_byte(input: &mut impl Read) -> Option<u8> {
    let mut byte = [0u8; 1];
    match input.read(&mut byte) {
        Ok(1) => Some(byte[0]),
        _ => None,
    }
}

// A line longer than the room is read to its end and is no line; nor is one without its newline, which std's `lines` would give as whole.
fn read_line<'a>(input: &mut impl Read, room: &'a mut [u8]) -> Line<'a> {
    let mut n = 0;
    for _ in 0..MOST {
        match next_byte(input) {
            Some(b'\n') if n < room.len() => return Line::Whole(&room[..n]),
            Some(b'\n') => return Line::Long,
            Some(c) => {
                if n < room.len() {
                    room[n] = c;
                    n += 1;
                }
            }
            None if n == 0 => return Line::End,
            None => return Line::Cut,
        }
    }
    Line::Cut
}

// A run ends: nothing more can be said, or nothing is known of its file.
#[derive(Drop)]
struct Ended;

impl From<io::Error> for Ended {
    fn from(_: io::Error) -> Ended {
        Ended
    }
}

// A kiosk that serves.
#[derive(Drop)]
struct Session<'a, R> {
    rt: &'a R,
    path: &'a str,
    file: File,
    // What the system said last of a record that was dropped.
    why: Option<io::Error>,
    kiosk: Kiosk,
    table: [u64; State::TABLE],
    journal: [u8; Kiosk::ROOMY],
}

impl<R: Runtime<File = File>> Session<'_, R> {
    // One whole line, the n-th. Where its record could not be made durable, a line on standard error says why.
    fn put(&mut self, n: u64, line: &[u8]) -> Result<(), Ended> {
        let Some(i) = input_of(line, self.kiosk.state.roll.height) else {
            return Ok(saying::bad_line(self.rt, n)?);
        };
        let turn = serving::put(
            self.rt,
            &mut self.file,
            self.kiosk,
            i,
            &mut self.table,
            &mut self.journal,
        );
        self.kiosk = turn.kiosk;
        match turn.outcome {
            Ok(()) => {}
            Err(Lost::Dropped(why)) => {
                self.why = why.or(self.why);
                tell::why(self.rt, self.path, Unusable::Failed(self.why));
            }
            Err(Lost::Unknown) => {
                tell::why(self.rt, self.path, Unusable::Unknown);
                return Err(Ended);
            }
        }
        Ok(turn.said?)
    }

    fn serve(&mut self) -> Result<(), Ended> {
        let mut input = self.rt.reader();
        for n in 1..=MOST {
            let mut room = [0u8; LINE + 1];
            match read_line(&mut input, &mut room) {
                Line::Whole(line) => self.put(n, line)?,
                Line::Long => saying::bad_line(self.rt, n)?,
                Line::Cut => return Ok(saying::bad_line(self.rt, n)?),
                Line::End => return Ok(()),
            }
        }
        Ok(())
    }
}

// A run on a file that its caller has locked. A journal that got the number of a closed standard stream would take what is said.
pub fn run<R: Runtime<File = File>>(rt: &R, path: &str) -> Result<(), Unusable> {
    let mut file = past_streams(OpenOptions::new().read(true).write(true).open(rt, path)?)?;
    let mut journal = [0u8; Kiosk::ROOMY];
    let Loaded { size, is_longer } = load(&mut file, &mut journal)?;
    if is_longer {
        let _ = saying::refused(rt, Answer::Impossible);
        return Ok(());
    }
    let mut table = [0u64; State::TABLE];
    let begun = serving::wake(rt, &mut file, &journal[..size], &mut table);
    match begun.start {
        Start::Serves => {
            let mut session = Session {
                rt,
                path,
                file,
                why: None,
                kiosk: begun.kiosk,
                table,
                journal,
            };
            let _ = session.serve();
            Ok(())
        }
        Start::Ends => Ok(()),
        Start::Uncut(e) => Err(Unusable::from(e)),
    }
}
