// What a run says on standard output, each answer in one write. Nothing else of the program writes outputs there.
#![tactic(auto)]

ghost use Rattle.std.specs.Prelude.{◌≤◌, ◌≡◌, IsOk, length};
ghost use Rattle.rules.specs.InContracts.Ready.{so_far};
ghost use Rattle.journal.specs.Layout.{group_bytes};
ghost use Rattle.journal.specs.Readback.{count_of};
ghost use Rattle.disk.specs.Disk.{held, Vouches};
ghost use Rattle.listing.specs.Listing.{refused_line};
ghost use Rattle.saying.specs.Texts.{text_of};
ghost use Rattle.saying.specs.Saying.{Lists, again_said, first_said, created_line, bad_line, said};

mod text;

use disk::Durable;
use refusals::Answer;
use rules::{Input, Output, Sent};
use std::io;
use text::Text;

// The answer to an accepted call, from the bytes of its group.
#[tactic(auto, using(crate::proofs::Rooms::accepted_most, crate::proofs::Rooms::outs_most), unfolding(printing::specs::InContracts::Pattern::the_pattern, listing::specs::Text::line, crate::specs::Saying::said))]
fn group_text(group: &[u8]) -> Text
    requires { (26 ≤ length group.now) × (count_of group.now ≤ 6) }
    ensures { text_of result ≡ said group.now }
{
    // Its casts only widen, beside those of lengths, which have no `From`.
    let count = group[25];
    let mut text = Text::new();
    text.line(b"accepted %\n", &[count as u64]);
    text.outputs_of(group, count as usize);
    text
}

// The same from a token: the text is of the bytes that it holds, and of no others.
fn accepted_text(d: &Durable, at: usize, i: Input, sent: Sent) -> Text
    requires { Vouches d.now at (group_bytes i (so_far sent)) }
    ensures { text_of result ≡ said (held d.now) }
{
    group_text(d.bytes())
}

// The counts of both lists, and their lines.
#[tactic(auto, using(crate::proofs::Rooms::again_most, crate::proofs::Rooms::lines_most), unfolding(printing::specs::InContracts::Pattern::the_pattern, listing::specs::Text::line, crate::specs::Saying::again_said))]
fn lists_text(messages: &[Output], timers: &[Output]) -> Text
    requires { (length messages.now ≤ 6) × (length timers.now ≤ 2) }
    ensures { text_of result ≡ again_said messages.now timers.now }
{
    let mut text = Text::new();
    text.line(
        b"again % %\n",
        &[messages.len() as u64, timers.len() as u64],
    );
    text.outputs(messages);
    text.outputs(timers);
    text
}

// What is said first, of the bytes of a file that is cut at its used length and durable.
fn again_text(synced: &io::Result<()>, journal: &[u8], messages: Sent, timers: Sent) -> Text
    requires { IsOk synced.now × Lists journal.now messages timers }
    ensures { text_of result ≡ first_said journal.now }
{
    lists_text(messages.outputs(), timers.outputs())
}

#[tactic(auto, using(crate::proofs::Rooms::created_most), unfolding(printing::specs::InContracts::Pattern::the_pattern, listing::specs::Text::line))]
fn created_text(d: &Durable) -> Text
    ensures { text_of result ≡ created_line d.now.size }
{
    let mut text = Text::new();
    text.line(b"created %\n", &[d.bytes().len() as u64]);
    text
}

#[tactic(auto, using(listing::proofs::Fits::refused_most))]
fn refused_text(answer: Answer) -> Text
    ensures { text_of result ≡ refused_line answer }
{
    let mut text = Text::new();
    text.refusal(answer);
    text
}

#[tactic(auto, using(crate::proofs::Rooms::bad_most), unfolding(printing::specs::InContracts::Pattern::the_pattern, listing::specs::Text::line))]
fn bad_text(n: u64) -> Text
    ensures { text_of result ≡ bad_line n }
{
    let mut text = Text::new();
    text.line(b"bad line %\n", &[n]);
    text
}

// Both lists of a journal, before any input is read: `synced` is that its file is cut at the used length and durable.
pub fn again(
    rt: &impl Print,
    synced: &io::Result<()>,
    journal: &[u8],
    messages: Sent,
    timers: Sent,
) -> io::Result<()>
    requires durable { IsOk synced.now }
    requires lists { Lists journal.now messages timers }
{
    again_text(synced, journal, messages, timers).say(rt)
}

// The outputs of a call. The token is of the group of this input and these outputs, in its place, and what is written is read out of it.
pub fn accepted(rt: &impl Print, d: Durable, at: usize, i: Input, sent: Sent) -> io::Result<()>
    requires { Vouches d at (group_bytes i (so_far sent)) }
{
    accepted_text(&d, at, i, sent).say(rt)
}

// A new journal, of which the header and the file's name in its folder are durable.
pub fn created(
    rt: &impl Print,
    d: Durable,
    header: &[u8],
    named: &Result<(), Option<io::Error>>,
) -> io::Result<()>
    requires { Vouches d 0 header.now × IsOk named.now }
{
    created_text(&d).say(rt)
}

// "refused 12", and where the answer has a place "refused 14 at 63".
pub fn refused(rt: &impl Print, answer: Answer) -> io::Result<()> {
    refused_text(answer).say(rt)
}

// A line that is no input, by its number from 1.
pub fn bad_line(rt: &impl Print, n: u64) -> io::Result<()> {
    bad_text(n).say(rt)
}

// A listing, or a part of one.
pub fn listing(rt: &impl Print, text: &[u8]) -> io::Result<()> {
    rt.write_all(text)
}
