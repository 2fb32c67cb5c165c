// A kiosk as a program: its journal is a file, its inputs are lines of standard input, its answers lines of standard output.
// bin/node starts it: exit statuses, the lock, signals and the kind of a file are that launcher's.
#![tactic(auto)]

mod args;
mod files;
mod list;
mod make;
mod serve;
mod tell;

use std::fs::File;
use std::rt::{Env, Runtime};

fn command<R: Runtime<File = File>>(rt: &R, verb: &[u8], path: &str, count: usize) {
    let done = match verb {
        b"create" => make::create(rt, path, count),
        b"run-locked" => serve::run(rt, path),
        b"last" => list::last(rt, path),
        b"list" => list::list(rt, path),
        _ => return tell::wrong(rt),
    };
    if let Err(why) = done {
        tell::why(rt, path, why);
    }
}

// A path is text: one of other bytes is a wrong argument.
fn main(rt: HostRuntime) {
    let count = args::count(&rt);
    let mut verb = [0u8; 16];
    let Ok(v) = rt.arg(1, &mut verb) else {
        return tell::wrong(&rt);
    };
    let mut path = [0u8; 4096];
    let Ok(n) = rt.arg(2, &mut path) else {
        return tell::wrong(&rt);
    };
    let Ok(path) = str::from_utf8(&path[..n]) else {
        return tell::wrong(&rt);
    };
    command(&rt, &verb[..v], path, count);
}
