// The numbers among the program's arguments.
use std::env::FillError;
use std::rt::Env;

// Of at most 11 digits: more than any number of 01 that is an argument has.
const MOST: u64 = 99999999999;

// No sign; zeros in front are taken.
fn decimal(text: &[u8]) -> Option<u64> {
    if !text.iter().all(|c| c.is_ascii_digit()) {
        return None;
    }
    let value = str::from_utf8(text).ok()?.parse::<u64>().ok()?;
    if value <= MOST { Some(value) } else { None }
}

pub fn number(rt: &impl Env, i: usize) -> Option<u64> {
    let mut text = [0u8; 16];
    let n = rt.arg(i, &mut text).ok()?;
    decimal(&text[..n])
}

fn is_there(rt: &impl Env, i: usize) -> bool {
    !matches!(rt.arg(i, &mut []), Err(FillError::NotPresent))
}

// How many arguments there are, the program's own name among them.
pub fn count(rt: &impl Env) -> usize {
    for i in 0..usize::MAX {
        if !is_there(rt, i) {
            return i;
        }
    }
    usize::MAX
}
