// The journal lister: a journal on standard input, its listing on standard output.
#![tactic(auto)]

use disk::reading::read_full;
use printing::{MOST_BYTES, TEXT_ROOM, print_journal};
use std::io;

fn main(rt: HostRuntime) -> io::Result<()> {
    // One byte more than the longest journal that is listed: a longer input shows as too long.
    let mut journal = [0u8; MOST_BYTES + 1];
    let n = read_full(&mut rt.reader(), &mut journal)?;
    let mut text = [0u8; TEXT_ROOM];
    let page = print_journal(&journal[..n], &mut text);
    rt.write_all(&text[..page.size])
}
