// What is told on standard error.
use std::io;

// Why a file is not used, or no more.
#[derive(Clone, Copy)]
pub enum Unusable {
    // It got the number of a standard stream that is closed.
    Closed,
    Longer,
    Whole,
    Other,
    // Nothing is known of it.
    Unknown,
    // A call on it failed; with what the system said, where it said something.
    Failed(Option<io::Error>),
}

impl From<io::Error> for Unusable {
    fn from(e: io::Error) -> Unusable {
        Unusable::Failed(Some(e))
    }
}

pub fn wrong(rt: &impl Eprint) {
    let _ = rt.eprint("wrong arguments: see bin/node --help\n");
}

// What the system said, without its number.
fn words_of(text: &str) -> &str {
    text.split_once(" (os error ")
        .map_or(text, |(words, _)| words)
}

fn line(rt: &impl Eprint, path: &str, words: &str) {
    let _ = rt.eprint(format_args!("{path}: {words}\n"));
}

fn failed(rt: &(impl Eprint + Alloc), path: &str, e: io::Error) {
    match format!(in rt.alloc(); "{e}") {
        Ok(text) => line(rt, path, words_of(text.as_str())),
        Err(_) => line(rt, path, "failed, and memory ran out"),
    }
}

// The words of each reason; no `Display`, since what the system said is cut before its number, in memory that may run out.
pub fn why(rt: &(impl Eprint + Alloc), path: &str, reason: Unusable) {
    match reason {
        Unusable::Closed => line(rt, path, "standard input, output and error must be open"),
        Unusable::Longer => line(
            rt,
            path,
            "not touched: it is longer than an unfinished header, or cannot be read",
        ),
        Unusable::Whole => line(rt, path, "not touched: its header is whole"),
        Unusable::Other => line(rt, path, "not touched: it is no first part of this header"),
        Unusable::Unknown => line(
            rt,
            path,
            "nothing is known of the file: stopped, and nothing is sent",
        ),
        Unusable::Failed(None) => line(rt, path, "failed"),
        Unusable::Failed(Some(e)) => failed(rt, path, e),
    }
}
