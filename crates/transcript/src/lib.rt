// What the replay program prints, as one call from the bytes of its input to the bytes of its output.
#![tactic(auto)]

ghost use Rattle.std.specs.Prelude.{◌≡◌, true, false, ◌+◌, ◌≤◌, ◌<◌, length, MatchOption};
ghost use Rattle.buffer.specs.Bytes.{splice};
ghost use Rattle.message.specs.Limits.{max_sessions};
ghost use Rattle.session.specs.Seniority.{plain};
ghost use Rattle.mailbox.specs.Layout as Mail;
ghost use Rattle.table.specs.Layout as Table;
ghost use Rattle.lockmgr.specs.Calls.{config, start_result, start};
ghost use Rattle.tally.specs.Steps.{step_of, tally_of};
ghost use Rattle.std.specs.Counts.{IsPrefixLen};
ghost use Rattle.program.specs.Program.{output, at_start};
ghost use Rattle.transcript.specs.Input as Input;
ghost use Rattle.transcript.specs.Transcript.{step_line, end_line, capacity, longest_line, longest, transcript};
ghost use Rattle.transcript.specs.Claims.{read_size};

use message::{MAX_ITEMS, MAX_SESSIONS};
use std::array;
use step::Answer;
use tally::{Step, Tally};

// C and the greatest n.
const CAPACITY: usize = mailbox::MAX_CAPACITY;

const MAX_STEPS: usize = 4096;

// What stands before the verbs, and the longest input.
const HEADER: usize = 4;

const LONGEST_INPUT: usize = HEADER + 3 * MAX_STEPS;

// One byte more, so that a longer input is noticed.
const ROOM: usize = LONGEST_INPUT + 1;

// The longest line: an index of four digits, eight numbers of three digits and a space, and the line feed.
const LONGEST_LINE: usize = 4 + 8 * 4 + 1;

// The longest output: a line for each step, and the last one.
pub const LONGEST: usize = LONGEST_LINE * (MAX_STEPS + 1);

// Room for as much of an input as has to be read: of each program by itself, as no length may be a trait's constant.
pub fn room() -> [u8; ROOM]
    ensures { read_size ≡ length result }
{
    [0; ROOM]
}

// Whether the input is as the program takes it.
#[tactic(auto, unfolding(crate::specs::Input::well_formed))]
fn well_formed(input: &[u8]) -> bool
    ensures { result ≡ Input.well_formed input.now }
{
    if input.len() < HEADER {
        return false;
    }
    let s = usize::from(input[0]);
    let m = usize::from(input[1]);
    // By `as`, here and below, in range as proved: std has no From for it.
    let n = buffer::get16(input, 2) as usize;
    (1..=MAX_SESSIONS).contains(&s)
        && (1..=MAX_ITEMS).contains(&m)
        && n <= MAX_STEPS
        && input.len() == HEADER + 3 * n
}

// A well-formed input and its number of steps.
#[derive(Clone, Copy)]
struct Script<'a> {
    input: &'a [u8],
    n: usize,
    ghost whole: { Input.well_formed input.now ≡ true },
    ghost counted: { n ≡ Input.count_in input.now },
    ghost sized: { length input.now ≡ Input.size n },
}

impl<'a> Script<'a> {
    fn read(input: &'a [u8]) -> Option<Script<'a>>
        ensures { MatchOption result (Input.well_formed input.now ≡ false) (λ s. s.input.now ≡ input.now) }
    {
        if !well_formed(input) {
            return None;
        }
        let n = buffer::get16(input, 2) as usize;
        Some(Script { input, n })
    }

    // Step k, from 0.
    #[tactic(auto, unfolding(crate::specs::Input::step_at))]
    fn step(&self, k: usize) -> Step
        requires { k < self.now.n }
        ensures { step_of result ≡ Input.step_at self.now.input.now k }
    {
        let at = HEADER + self.n + 2 * k;
        Step {
            verb: self.input[HEADER + k],
            session: self.input[at],
            item: self.input[at + 1],
        }
    }
}

// Writes the line of a step.
fn put_step(out: &mut [u8], at: usize, index: u64, c: Step, a: Answer) -> usize
    requires { (index < 10000) × (at + longest_line ≤ length out.old) }
    ensures { (out.new ≡ splice out.old at (step_line index (step_of c) a)) × (result ≡ at + length (step_line index (step_of c) a)) × (result ≤ at + longest_line) }
{
    let numbers = [
        c.verb,
        c.session,
        c.item,
        a.refusal,
        a.sent,
        a.closed,
        a.victim,
        a.initiator,
    ]
    .map(u64::from);
    text::put_line(out, at, index, &numbers)
}

// Writes the last line.
fn put_end(out: &mut [u8], at: usize, left: u64, t: Tally) -> usize
    requires { (left < 100000) × (t.closed < 10000) × (t.declared < 10000) × (t.rolled_back < 10000) × (at + longest_line ≤ length out.old) }
    ensures { (out.new ≡ splice out.old at (end_line left (tally_of t))) × (result ≡ at + length (end_line left (tally_of t))) × (result ≤ at + longest_line) }
{
    let next = buffer::put_bytes(out, at, b"end");
    let numbers = [left, t.closed, t.declared, t.rolled_back];
    text::end_line(out, next, &numbers)
}

// Rank k for session k.
fn plain_ranks() -> [u8; MAX_SESSIONS]
    ensures { result ≡ plain max_sessions }
{
    array::from_fn(|k| (k + 1) as u8)
}

// Starts a lock manager of s sessions and m items, and answers as the call does.
fn begin(s: u8, m: u8, table: &mut [u8], mail: &mut [u8]) -> u8
    requires { s ≤ max_sessions }
    ensures { start_result result table.new mail.new ≡ start (config s m capacity (plain s)) table.old mail.old }
{
    let ranks = plain_ranks();
    lockmgr::lockmgr_start(
        u64::from(s),
        u64::from(m),
        CAPACITY as u64,
        &ranks[..usize::from(s)],
        table,
        mail,
    )
}

// The steps of a script, in buffers for its lock manager. That the output is long enough is a clause, as it is lent; the tally is written out, since all begins at 0 here.
fn play(script: &Script, table: &mut [u8], mail: &mut [u8], out: &mut [u8]) -> usize
    requires { (length table.old ≡ Table.size (Input.sessions_in script.now.input.now) (Input.items_in script.now.input.now)) × (length mail.old ≡ Mail.size capacity) × (longest ≤ length out.old) }
    ensures { (out.new ≡ splice out.old 0 (transcript script.now.input.now)) × (result ≡ length (transcript script.now.input.now)) × (result ≤ longest) }
{
    begin(script.input[0], script.input[1], table, mail);
    let mut tally = Tally {
        closed: 0,
        declared: 0,
        rolled_back: 0,
    };
    let mut at: usize = 0;
    for k in 0..script.n {
        let c = script.step(k);
        let answer = tally::take_step(c, &mut tally, table, mail);
        at = put_step(out, at, k as u64 + 1, c, answer);
    }
    put_end(out, at, mailbox::count(mail) as u64, tally)
}

// Writes what the program prints at the start of `out`, and answers its length. A buffer shorter than LONGEST stays as it was, and the answer is 0.
pub fn write(input: &[u8], out: &mut [u8]) -> usize
    ensures { (output result out.new ≡ at_start longest (transcript input.now) out.old) × IsPrefixLen result out.new }
{
    // Kept by hand, as in `yearly`: a trait over both programs would save this test, and ask for a constant, a ghost text and a type of each.
    if out.len() < LONGEST {
        return 0;
    }
    let Some(script) = Script::read(input) else {
        return buffer::put_bytes(out, 0, b"bad\n");
    };
    let mut table = [0u8; table::MAX_SIZE];
    let mut mail = [0u8; mailbox::MAX_SIZE];
    let size = table::size(input[0], input[1]);
    play(&script, &mut table[..size], &mut mail, out)
}
