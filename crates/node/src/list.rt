// A journal's listing, and its last record's part of it.
ghost use Rattle.std.specs.Prelude.{◌≤◌, length, IfOk};

use crate::files::load;
use crate::tell::Unusable;
use printing::{MOST_BYTES, TEXT_ROOM, print_journal};
use std::fs::File;
use std::ops::RangeInclusive;
use std::rt::Runtime;

// The listing of a file; its length.
fn listing<R: Runtime<File = File>>(rt: &R, path: &str, text: &mut [u8]) -> Result<usize, Unusable>
    ensures { IfOk result (λ n. n ≤ length text.new) }
{
    let mut file = File::open(rt, path)?;
    let mut journal = [0u8; MOST_BYTES + 1];
    let read = load(&mut file, &mut journal)?;
    Ok(print_journal(&journal[..read.size], text).size)
}

pub fn list<R: Runtime<File = File>>(rt: &R, path: &str) -> Result<(), Unusable> {
    let mut text = [0u8; TEXT_ROOM];
    let size = listing(rt, path, &mut text)?;
    let _ = saying::listing(rt, &text[..size]);
    Ok(())
}

// Where the last line starts that starts with one of these bytes.
fn last_line(text: &[u8], first: RangeInclusive<u8>) -> Option<usize> {
    let mut at = None;
    let mut before = b'\n';
    for (i, c) in text.iter().enumerate() {
        if before == b'\n' && first.contains(c) {
            at = Some(i);
        }
        before = *c;
    }
    at
}

// The last call line and its out lines; nothing where there is no record; the refusal where the journal does not open.
pub fn last<R: Runtime<File = File>>(rt: &R, path: &str) -> Result<(), Unusable> {
    let mut text = [0u8; TEXT_ROOM];
    let size = listing(rt, path, &mut text)?;
    let text = &text[..size];
    if last_line(text, b'r'..=b'r').is_some() {
        let _ = saying::listing(rt, text);
        return Ok(());
    }
    let from = last_line(text, b'0'..=b'9').unwrap_or(size);
    let to = last_line(text, b'e'..=b'e').unwrap_or(size);
    if let Some(record) = text.get(from..to) {
        let _ = saying::listing(rt, record);
    }
    Ok(())
}
