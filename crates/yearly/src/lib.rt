// What the statement program prints, as one call from the bytes of its input to the bytes of its output.
#![tactic(auto)]

ghost use Rattle.std.specs.Prelude.{◌≡◌, true, ◌+◌, ◌*◌, ◌≤◌, length};
ghost use Rattle.buffer.specs.Bytes.{splice};
ghost use Rattle.refusal.specs.Number.{outcome};
ghost use Rattle.std.specs.Counts.{IsPrefixLen};
ghost use Rattle.program.specs.Program.{output, at_start};
ghost use Rattle.yearly.specs.Input as Input;
ghost use Rattle.yearly.specs.Input.{value_at, record_at, consistent_day, max_days};
ghost use Rattle.yearly.specs.Rate.{rate};
ghost use Rattle.yearly.specs.Printed.{sums, refusal, day_lines, longest, longest_line, statement};
ghost use Rattle.yearly.specs.Parts.{Days, max_value};
ghost use Rattle.yearly.specs.Claims.{read_size};

use refusal::Refusal;
use std::cmp::Ordering;

const MAX_DAYS: usize = 366;

// The longest input: the number of days, and two values for each day, of 2 bytes each.
const LONGEST_INPUT: usize = 2 * (1 + 2 * MAX_DAYS);

// One byte more, so that a longer input is noticed.
const ROOM: usize = LONGEST_INPUT + 1;

// The longest line of a day: three digits, two numbers of five digits and a space, and the line feed.
const LONGEST_LINE: usize = 3 + 2 * 6 + 1;

// The longest output: a line for each day, then two sums of eight digits, a rate of four, two spaces and the line feed.
pub const LONGEST: usize = LONGEST_LINE * MAX_DAYS + 8 + 9 + 5 + 1;

// Sessions taken part and sessions rolled back, of one day or in sum.
#[derive(Clone, Copy)]
pub struct Record {
    pub sessions: u64,
    pub rollbacks: u64,
}

// Room for as much of an input as has to be read: of each program by itself, as no length may be a trait's constant.
pub fn room() -> [u8; ROOM]
    ensures { read_size ≡ length result }
{
    [0; ROOM]
}

// Value i of the input, from 0.
fn value(input: &[u8], i: usize) -> u64
    requires { 2 * i + 2 ≤ length input.now }
    ensures { (result ≡ value_at input.now i) × (result ≤ max_value) }
{
    buffer::get16(input, 2 * i)
}

// Whether the number of days is within bounds and the length is that of so many days.
#[tactic(auto, unfolding(crate::specs::Input::sized))]
fn sized(input: &[u8]) -> bool
    ensures { result ≡ Input.sized input.now }
{
    if input.len() < 2 {
        return false;
    }
    // By `as`, here and below, in range as proved: std has no From for it.
    let n = value(input, 0) as usize;
    (1..=MAX_DAYS).contains(&n) && input.len() == 2 * (1 + 2 * n)
}

// An input that is sized, and its number of days.
#[derive(Clone, Copy)]
struct DayList<'a> {
    input: &'a [u8],
    n: usize,
    ghost sized: { Days input.now n },
}

impl<'a> DayList<'a> {
    fn of(input: &'a [u8]) -> DayList<'a>
        requires { Input.sized input.now ≡ true }
        ensures { result.input.now ≡ input.now }
    {
        DayList {
            input,
            n: value(input, 0) as usize,
        }
    }

    // The record of a day, from 1.
    fn day(&self, day: usize) -> Record
        requires { (1 ≤ day) × (day ≤ self.now.n) }
        ensures { (result ≡ record_at self.now.input.now day) × (result.sessions ≤ max_value) × (result.rollbacks ≤ max_value) }
    {
        let sessions = value(self.input, day);
        let rollbacks = value(self.input, self.n + day);
        Record {
            sessions,
            rollbacks,
        }
    }

    // Whether no more rolled back than took part on that day.
    fn is_day_consistent(&self, day: usize) -> bool
        requires { (1 ≤ day) × (day ≤ self.now.n) }
        ensures { result ≡ consistent_day self.now.input.now day }
    {
        let r = self.day(day);
        r.rollbacks <= r.sessions
    }

    fn is_consistent(&self) -> bool
        ensures { result ≡ Input.consistent self.now.input.now }
    {
        (0..self.n).all(|k| self.is_day_consistent(k + 1))
    }

    // The sums of the records of all days.
    fn sums(&self) -> Record
        ensures { (result ≡ sums self.now.input.now) × (result.sessions ≤ max_days * max_value) }
    {
        let mut sum = Record {
            sessions: 0,
            rollbacks: 0,
        };
        for day in 1..self.n + 1 {
            let r = self.day(day);
            sum.sessions += r.sessions;
            sum.rollbacks += r.rollbacks;
        }
        sum
    }
}

// Whether the list is refused.
#[tactic(auto, using(crate::proofs::Laws::causes_of))]
fn judge(input: &[u8]) -> Result<(), Refusal>
    ensures { outcome result ≡ refusal input.now }
{
    if !sized(input) {
        return Err(Refusal::BadList);
    }
    let days = DayList::of(input);
    let inconsistent = !days.is_consistent();
    let nobody = days.sums().sessions == 0;
    if inconsistent {
        return Err(Refusal::BadList);
    }
    if nobody {
        return Err(Refusal::Nobody);
    }
    Ok(())
}

// Sessions rolled back per thousand taken part, to the nearest whole, a tie to the even one.
fn rate(rollbacks: u64, sessions: u64) -> u64
    requires { (1 ≤ sessions) × (rollbacks ≤ sessions) × (sessions ≤ max_days * max_value) }
    ensures { result ≡ rate rollbacks sessions }
{
    let scaled = 1000 * rollbacks;
    let quotient = scaled / sessions;
    let remainder = scaled % sessions;
    match (2 * remainder).cmp(&sessions) {
        Ordering::Less => quotient,
        Ordering::Equal => quotient + quotient % 2,
        Ordering::Greater => quotient + 1,
    }
}

// Writes the lines of the days. That the output is long enough is a clause, here and below, as it is lent.
fn put_days(out: &mut [u8], days: &DayList) -> usize
    requires { longest ≤ length out.old }
    ensures { (out.new ≡ splice out.old 0 (day_lines days.now.input.now days.now.n)) × (result ≡ length (day_lines days.now.input.now days.now.n)) × (result ≤ longest_line * days.now.n) }
{
    let mut at: usize = 0;
    for day in 1..days.n + 1 {
        let r = days.day(day);
        at = text::put_line(out, at, day as u64, &[r.sessions, r.rollbacks]);
    }
    at
}

// Writes the statement of a list that is not refused.
fn put_statement(out: &mut [u8], input: &[u8]) -> usize
    requires { (refusal input.now ≡ 0) × (longest ≤ length out.old) }
    ensures { (out.new ≡ splice out.old 0 (statement input.now)) × (result ≡ length (statement input.now)) × (result ≤ longest) }
{
    let days = DayList::of(input);
    let total = days.sums();
    let at = put_days(out, &days);
    let numbers = [total.rollbacks, rate(total.rollbacks, total.sessions)];
    text::put_line(out, at, total.sessions, &numbers)
}

// Writes what the program prints at the start of `out`, and answers its length. A buffer shorter than LONGEST stays as it was, and the answer is 0.
pub fn write(input: &[u8], out: &mut [u8]) -> usize
    ensures { (output result out.new ≡ at_start longest (statement input.now) out.old) × IsPrefixLen result out.new }
{
    // Kept by hand, as in `transcript`: a trait over both programs would save this test, and ask for a constant, a ghost text and a type of each.
    if out.len() < LONGEST {
        return 0;
    }
    match judge(input) {
        Ok(()) => put_statement(out, input),
        Err(cause) => text::put_line(out, 0, u64::from(u8::from(cause)), &[]),
    }
}
