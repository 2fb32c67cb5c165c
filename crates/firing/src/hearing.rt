// What a call writes in the lent log and table: messages. The table's places that are written are kept in a trail with the names that
// they held, so that a call refused for room leaves no trace.
ghost use Rattle.std.specs.Prelude.{◌+◌, ◌<◌, ◌≤◌, ◌≡◌, length, get_or, set, if◌then◌else◌, IfSome};
ghost use Rattle.words.specs.Marks.{mark};
ghost use Rattle.roll.specs.Weighing.{most_kiosks};
ghost use Rattle.rules.specs.State.{most_rounds, log_length, proposal_at, valid_at};
ghost use Rattle.rules.specs.Log.{message, hear_proposal, hear_vote};
ghost use Rattle.firing.specs.InContracts.Trails.{longer, undone, own_message, writes, seen, same_loans, Writable, Puts};

use crate::{Lent, Trail};
use roll::{PlusOne, Round};
use rules::places::{log_place, marks_place, proposal_place, votes_place};
use rules::{Log, Output, Votes};
use words::marks::with_mark;

impl Trail {
    // The table as it was before the writes of the trail, the last taken back first.
    pub fn take_back(&self, table: &mut [u64])
        requires { self.now.count ≤ 7 }
        ensures { table.new ≡ undone self.now table.old }
    {
        for last in (0..self.count).rev() {
            let (place, name) = self.places[last];
            write(table, place, name);
        }
    }

    // With one place more, and the name that it held.
    fn note(&mut self, place: usize, name: u64)
        requires { self.old.count < 7 }
        ensures { self.new ≡ longer self.old place name }
    {
        self.places[self.count] = (place, name);
        self.count += 1;
    }
}

// A seat's vote in the marks at a place of the log.
fn mark_vote(log: &mut Log, at: usize, seat: usize)
    requires { (at < log_length) × (seat < most_kiosks) }
    ensures { log.new ≡ set log.old at (mark (get_or log.old at 0) seat) }
{
    log[at] = with_mark(log[at], seat);
}

// A proposal as the log has it, by its verdict.
fn proposal_of(good: bool) -> u32
    ensures { result ≡ (if good then 2 else 1) }
{
    if good { 2 } else { 1 }
}

// A round's proposal, with its verdict and its valid round.
fn mark_proposal(log: &mut Log, r: Round, good: bool, valid: PlusOne)
    requires { r.0 < most_rounds }
    ensures { log.new ≡ set (set log.old (proposal_at r.0) (if good then 2 else 1)) (valid_at r.0) valid.0 }
{
    let at = log_place(r);
    log[at + 2] = proposal_of(good);
    log[at + 3] = u32::from(valid.0);
}

// A name in a place of the table; a place past its end is none. By `get_mut` the proof does not close: that such a place changes nothing.
fn write(table: &mut [u64], place: usize, name: u64)
    ensures { table.new ≡ set table.old place name }
{
    if place < table.len() {
        table[place] = name;
    }
}

impl Lent<'_> {
    // The table as it was before the writes of the trail, the last taken back first.
    pub fn take_back(&mut self)
        requires { self.old.trail.count ≤ 7 }
        ensures loans { same_loans self.old self.new }
        ensures log { self.new.log.now ≡ self.old.log.now }
        ensures table { self.new.table.now ≡ undone self.old.trail self.old.table.now }
        ensures trail { self.new.trail ≡ self.old.trail }
    {
        self.trail.take_back(self.table);
    }

    // A name in a place of the table, and the trail with the place and the name that it held.
    fn note(&mut self, place: usize, name: u64)
        requires { (self.old.trail.count < 7) × (place < length self.old.table.now) }
        ensures loans { same_loans self.old self.new }
        ensures log { self.new.log.now ≡ self.old.log.now }
        ensures table { self.new.table.now ≡ set self.old.table.now place name }
        ensures trail { self.new.trail ≡ longer self.old.trail place (get_or self.old.table.now place 0) }
    {
        let held = self.table[place];
        self.trail.note(place, held);
        self.table[place] = name;
    }

    // A vote.
    fn hear_vote(&mut self, v: Votes, r: Round, seat: usize, name: u64)
        requires { (r.0 < most_rounds) × (seat < most_kiosks) × Writable self.old.trail self.old.table.now }
        ensures loans { same_loans self.old self.new }
        ensures puts { Puts (λ d. hear_vote v d r.0 seat name) 1 (seen self.old) (seen self.new) }
    {
        mark_vote(self.log, marks_place(v, r), seat);
        self.note(votes_place(v, r) + seat, name);
    }

    // A proposal.
    fn hear_proposal(&mut self, o: Output, good: bool)
        requires { (o.round.0 < most_rounds) × Writable self.old.trail self.old.table.now }
        ensures loans { same_loans self.old self.new }
        ensures puts { Puts (λ d. hear_proposal d o.round.0 good o.valid.0 o.name) 1 (seen self.old) (seen self.new) }
    {
        mark_proposal(self.log, o.round, good, o.valid);
        self.note(proposal_place(o.round), o.name);
    }

    // A message; another output changes nothing. By number, as `message` says what each number does, one that is no kind too.
    pub(crate) fn hear(&mut self, o: Output, seat: usize, good: bool)
        requires { (o.round.0 < most_rounds) × (seat < most_kiosks) × Writable self.old.trail self.old.table.now }
        ensures loans { same_loans self.old self.new }
        ensures puts { Puts (message o seat good) 1 (seen self.old) (seen self.new) }
    {
        match o.kind {
            Output::PROPOSAL => self.hear_proposal(o, good),
            Output::PREVOTE => self.hear_vote(Votes::Prevotes, o.round, seat, o.name),
            Output::PRECOMMIT => self.hear_vote(Votes::Precommits, o.round, seat, o.name),
            _ => {}
        }
    }

    // An own output, where it is a message: with verdict 1.
    pub(crate) fn hear_own(&mut self, output: Option<Output>, seat: usize)
        requires { (seat < most_kiosks) × IfSome output (λ o. (o.round.0 < most_rounds) × Writable self.old.trail self.old.table.now) × (length self.old.trail.places ≡ 7) }
        ensures loans { same_loans self.old self.new }
        ensures puts { Puts (own_message output seat) (writes output) (seen self.old) (seen self.new) }
    {
        if let Some(o) = output {
            self.hear(o, seat, true);
        }
    }
}
