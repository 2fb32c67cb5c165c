// A new journal from the program's arguments.
use crate::args::number;
use crate::files::{HEADER, open_new, write_new};
use crate::tell;
use crate::tell::Unusable;
use kiosk::calls::create as create_journal;
use roll::Height;
use std::fs::File;
use std::rt::{Env, Runtime};

// One kiosk more than a roll has, so that more show.
const POWERS: usize = 33;

// The kiosk's own number and the height, and the powers, from argument 5 on; one that is too large for a power is the largest.
fn asked(rt: &impl Env, powers: &mut [u16]) -> Option<(usize, Height)> {
    let own = number(rt, 3)?;
    let height = u32::try_from(number(rt, 4)?).ok()?;
    for (power, i) in powers.iter_mut().zip(5..) {
        *power = u16::try_from(number(rt, i)?).unwrap_or(u16::MAX);
    }
    Some((own as usize, Height(height)))
}

// The header in a new file; or the refusal.
fn make<R: Runtime<File = File>>(
    rt: &R,
    path: &str,
    powers: &[u16],
    own: usize,
    height: Height,
) -> Result<(), Unusable> {
    let mut header = [0u8; HEADER];
    let made = create_journal(powers, own, height, &mut header);
    if !made.answer.is_accepted() {
        let _ = saying::refused(rt, made.answer);
        return Ok(());
    }
    let header = &header[..made.used];
    write_new(rt, path, open_new(rt, path, header)?, header)
}

pub fn create<R: Runtime<File = File>>(rt: &R, path: &str, count: usize) -> Result<(), Unusable> {
    let mut list = [0u16; POWERS];
    let powers = &mut list[..count.saturating_sub(5).min(POWERS)];
    if !powers.is_empty() {
        if let Some((own, height)) = asked(rt, powers) {
            return make(rt, path, powers, own, height);
        }
    }
    tell::wrong(rt);
    Ok(())
}
