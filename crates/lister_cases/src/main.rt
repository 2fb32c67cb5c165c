// Each file of data/ is a journal: its name, and then its listing.
#![tactic(auto)]

use disk::reading::read_full;
use printing::{MOST_BYTES, TEXT_ROOM, print_journal};
use std::fs::File;
use std::io;
use std::rt::Files;

const CASES: [&str; 15] = [
    "empty",
    "count-33",
    "four",
    "cut-in-powers",
    "cut-in-own-section",
    "cut-in-input",
    "cut-in-outputs",
    "bad-power",
    "bad-section",
    "bad-zero",
    "bad-output",
    "settled",
    "settled-and-more",
    "fullest",
    "fullest-and-more",
];

fn list(rt: &(impl Files + Print), path: &str) -> io::Result<()> {
    println!(rt; "{path}")?;
    let Ok(mut file) = File::open(rt, path) else {
        return println!(rt; "no such file");
    };
    let mut journal = [0u8; MOST_BYTES + 1];
    let n = read_full(&mut file, &mut journal)?;
    let mut text = [0u8; TEXT_ROOM];
    let page = print_journal(&journal[..n], &mut text);
    rt.write_all(&text[..page.size])
}

fn main(rt: HostRuntime) -> io::Result<()> {
    for path in CASES {
        list(&rt, path)?;
    }
    Ok(())
}
