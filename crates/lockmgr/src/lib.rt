// The lock manager (01: the desk): start, step, report, reopen, cycle text and drain on lent bytes. Crate lockmgr_c exports them to C.
#![tactic(auto)]

ghost use Rattle.std.specs.Prelude.{◌≡◌, ◌≤◌, false, IfOk, MatchResult};
ghost use Rattle.lists.specs.Lists.{between};
ghost use Rattle.refusal.specs.Refusal.{first};
ghost use Rattle.refusal.specs.Number.{outcome};
ghost use Rattle.refusal.specs.declared.Refusal.TheVariants.{BadNumber};
ghost use Rattle.step.specs.Verb.{verb_number};
ghost use Rattle.step.specs.Told.{told};
ghost use Rattle.step.specs.Step.{stepped, Formed};
ghost use Rattle.drain.specs.Parts.{closed_up, GapIn};
ghost use Rattle.reopen.specs.Reopening.{reopened};
ghost use Rattle.cycletext.specs.OnTable.{described};
ghost use Rattle.cycletext.specs.Told.{told as text_told};
ghost use Rattle.lockmgr.specs.Calls.{config, sizes_fit, start_refusal, start_result, start, buffer_causes, judged, step, report_refusal, report, reopen, cycle_text};
ghost use Rattle.lockmgr.specs.Run.{buffers};
ghost use Rattle.lockmgr.specs.Ending.{ending_number};
ghost use Rattle.lockmgr.specs.Drain.{drain_refusal, drain_answer, drain_result, drain};
ghost use Rattle.lockmgr.specs.Parts.{turned, turn_of, turn_ending, turn_made, turn_gap};

pub use cycletext::Text;
use drain::Gap;
use message::{MAX_ITEMS, MAX_SESSIONS};
use refusal::Refusal;
pub use step::Answer;
use step::Verb;

// The answer of a report, as C reads it.
#[repr(C)]
#[derive(Clone, Copy)]
pub struct Cycle {
    pub refusal: u8,
    pub length: u8,
}

// Table and mail are two parameters all the way: C lends them so, and a report and a text are lent the table alone.

// Whether the numbers that start is given are within their bounds and the lengths are theirs. The six stand side by side as C hands them over;
// once judged they are narrowed by `as`, since std has no From for that.
#[tactic(auto, unfolding(crate::specs::Calls::sizes_fit))]
fn sizes_fit(
    sessions: u64,
    items: u64,
    capacity: u64,
    ranks: &[u8],
    table: &[u8],
    mail: &[u8],
) -> bool
    ensures { result ≡ sizes_fit (config sessions items capacity ranks.now) table.now mail.now }
{
    let bounded = (sessions >= 1)
        & (sessions <= MAX_SESSIONS as u64)
        & ((items >= 1) & (items <= MAX_ITEMS as u64))
        & ((capacity >= 1) & (capacity <= mailbox::MAX_CAPACITY as u64));
    if !bounded {
        return false;
    }
    (ranks.len() == sessions as usize)
        & (table.len() == table::size(sessions as u8, items as u8))
        & (mail.len() == mailbox::size(capacity as usize))
}

// Whether a start is refused. Its lists are looked at only where their lengths are right.
#[tactic(auto, using(crate::proofs::Judging::starts), unfolding(crate::specs::Calls::start_refusal, refusal::specs::Refusal::first))]
fn judge_start(
    sessions: u64,
    items: u64,
    capacity: u64,
    ranks: &[u8],
    table: &[u8],
    mail: &[u8],
) -> Result<(), Refusal>
    ensures { outcome result ≡ start_refusal (config sessions items capacity ranks.now) table.now mail.now }
{
    if !sizes_fit(sessions, items, capacity, ranks, table, mail) {
        return Err(Refusal::BadSize);
    }
    if !form::ranks(ranks) {
        return Err(Refusal::BadRanks);
    }
    Ok(())
}

// Opens a lock manager in two lent buffers; byte k of the list, from 1, is the rank of session k. The answer is the number that C gets.
#[tactic(auto, using(crate::proofs::Judging::starts), unfolding(crate::specs::Calls::start))]
pub fn lockmgr_start(
    sessions: u64,
    items: u64,
    capacity: u64,
    ranks: &[u8],
    table: &mut [u8],
    mail: &mut [u8],
) -> u8
    ensures { start_result result table.new mail.new ≡ start (config sessions items capacity ranks.now) table.old mail.old }
{
    match judge_start(sessions, items, capacity, ranks, table, mail) {
        Ok(()) => {
            table::clear(table, sessions as u8, items as u8, ranks);
            mailbox::clear(mail, capacity as usize);
            0
        }
        Err(cause) => cause.into(),
    }
}

// Whether a call is refused for its buffers.
#[tactic(auto, using(table::proofs::Laws::places), unfolding(refusal::specs::Refusal::first))]
fn judge_buffers(table: &[u8], mail: &[u8]) -> Result<(), Refusal>
    ensures { outcome result ≡ first (buffer_causes table.now mail.now) }
{
    if !table::sized(table) {
        return Err(Refusal::BadSize);
    }
    if !mailbox::sized(mail) {
        return Err(Refusal::BadSize);
    }
    if !table::well_formed(table) {
        return Err(Refusal::BadTable);
    }
    if !mailbox::well_formed(mail, table::sessions(table), table::items(table)) {
        return Err(Refusal::BadMail);
    }
    Ok(())
}

// The session or the item of this number, of so many.
fn named(number: u64, top: u8) -> Result<u8, Refusal>
    ensures { MatchResult result (λ k. (k ≡ number) × (1 ≤ number) × (number ≤ top)) (λ e. (e ≡ BadNumber) × (between 1 top number ≡ false)) }
{
    if number < 1 {
        return Err(Refusal::BadNumber);
    }
    if u64::from(top) < number {
        return Err(Refusal::BadNumber);
    }
    Ok(number as u8)
}

// Judges what is judged before the step itself is looked at: the verb, the session and the item that are named, a tuple that its one reader takes apart at once.
#[tactic(auto, using(table::proofs::Laws::places, crate::proofs::Judging::judgements))]
fn judge(
    verb: u64,
    session: u64,
    item: u64,
    table: &[u8],
    mail: &[u8],
) -> Result<(Verb, u8, u8), Refusal>
    ensures number { outcome result ≡ judged verb session item table.now mail.now }
    ensures named { IfOk result (λ j. (verb_number j.0 ≡ verb) × (j.1 ≡ session) × (j.2 ≡ item)) }
{
    let verb = Verb::try_from(verb)?;
    judge_buffers(table, mail)?;
    let session = named(session, table::sessions(table))?;
    let item = named(item, table::items(table))?;
    Ok((verb, session, item))
}

// One step that may be refused. Each such part of a call is a function of its own, so that it can pass refusals on: C wants another answer.
#[tactic(auto, using(crate::proofs::Judging::steps))]
fn try_step(
    verb: u64,
    session: u64,
    item: u64,
    table: &mut [u8],
    mail: &mut [u8],
) -> Result<Answer, Refusal>
    ensures { stepped (told result) table.new mail.new ≡ step verb session item table.old mail.old }
{
    let (verb, session, item) = judge(verb, session, item, table, mail)?;
    step::act(verb, session, item, table, mail)
}

// One step: a request, a release or a delivery.
pub fn lockmgr_step(verb: u64, session: u64, item: u64, table: &mut [u8], mail: &mut [u8]) -> Answer
    ensures { stepped result table.new mail.new ≡ step verb session item table.old mail.old }
{
    match try_step(verb, session, item, table, mail) {
        Ok(answer) => answer,
        Err(cause) => Answer::refused(cause.into()),
    }
}

// Judges a call that reads the table alone: the session that is named.
#[tactic(auto, using(table::proofs::Laws::places, crate::proofs::Judging::reports))]
fn judge_report(session: u64, table: &[u8]) -> Result<u8, Refusal>
    ensures number { outcome result ≡ report_refusal session table.now }
    ensures named { IfOk result (λ t. t ≡ session) }
{
    if !table::sized(table) {
        return Err(Refusal::BadSize);
    }
    if !table::well_formed(table) {
        return Err(Refusal::BadTable);
    }
    named(session, table::sessions(table))
}

// The length of the cycle on which a session lies, or 0.
#[tactic(auto, using(crate::proofs::Judging::reports), unfolding(crate::specs::Calls::report))]
pub fn lockmgr_report(session: u64, table: &[u8]) -> Cycle
    ensures { result ≡ report session table.now }
{
    match judge_report(session, table) {
        Ok(session) => {
            let length = waits::cycle_length(table, session);
            Cycle { refusal: 0, length }
        }
        Err(cause) => Cycle {
            refusal: cause.into(),
            length: 0,
        },
    }
}

// A reopening that may be refused.
#[tactic(auto, using(table::proofs::Laws::places, crate::proofs::Judging::reopenings))]
fn try_reopen(session: u64, table: &mut [u8], mail: &[u8]) -> Result<(), Refusal>
    ensures { reopened (outcome result) table.new ≡ reopen session table.old mail.now }
{
    judge_buffers(table, mail)?;
    let session = named(session, table::sessions(table))?;
    reopen::reopen(session, table, mail)
}

// Reopens a session whose work is over and that nothing names: it begins anew. The mail is read, never written. The answer is the number that C gets.
pub fn lockmgr_reopen(session: u64, table: &mut [u8], mail: &[u8]) -> u8
    ensures { reopened result table.new ≡ reopen session table.old mail.now }
{
    match try_reopen(session, table, mail) {
        Ok(()) => 0,
        Err(cause) => cause.into(),
    }
}

// A text that may be refused: its length.
#[tactic(auto, using(crate::proofs::Judging::texts))]
fn try_cycle_text(session: u64, table: &[u8], text: &mut [u8]) -> Result<u16, Refusal>
    ensures { described (text_told result) text.new ≡ cycle_text session table.now text.old }
{
    let session = judge_report(session, table)?;
    cycletext::describe(session, table, text)
}

// The text of the cycle on which a session lies, a line for each member, at the start of a lent buffer.
pub fn lockmgr_cycle_text(session: u64, table: &[u8], text: &mut [u8]) -> Text
    ensures { described result text.new ≡ cycle_text session table.now text.old }
{
    match try_cycle_text(session, table, text) {
        Ok(length) => Text { refusal: 0, length },
        Err(cause) => Text::refused(cause.into()),
    }
}

// The answer of a drain, as C reads it: how many deliveries it made, and why it ended.
#[repr(C)]
#[derive(Clone, Copy)]
pub struct Drained {
    pub refusal: u8,
    pub made: u64,
    pub ending: u8,
}

// Why a drain ends: no mail is left, the next delivery would be refused with 9, or so many are made.
#[derive(Clone, Copy, Debug, PartialEq, Eq)]
pub enum Ending {
    Empty = 1,
    Full,
    Limited,
}

impl Drained {
    // The number that C gets.
    fn refused(refusal: u8) -> Drained
        ensures { result ≡ drain_answer refusal 0 0 }
    {
        Drained {
            refusal,
            made: 0,
            ending: 0,
        }
    }

    // The ending is made a number here alone, so without a From.
    fn accepted(made: u64, ending: Ending) -> Drained
        ensures { result ≡ drain_answer 0 made (ending_number ending) }
    {
        Drained {
            refusal: 0,
            made,
            ending: ending as u8,
        }
    }
}

// Delivers the oldest entry, the one behind the gap, if one more is allowed: the gap after it, or why the drain ends here. The gap begins at the front.
fn take_turn(
    limit: u64,
    made: u64,
    gap: Gap,
    table: &mut [u8],
    mail: &mut [u8],
) -> Result<Gap, Ending>
    requires { (gap.from ≡ 0) × GapIn gap mail.old × Formed table.old (closed_up gap mail.old) }
    ensures { ((turn_gap gap result).from ≡ 0) × GapIn (turn_gap gap result) mail.new × (turned (turn_ending result) (turn_made made result) table.new (closed_up (turn_gap gap result) mail.new) ≡ turn_of limit made (buffers table.old (closed_up gap mail.old))) }
{
    if mailbox::count(mail) <= gap.to {
        return Err(Ending::Empty);
    }
    let allowed = made < limit;
    match drain::deliver(gap, allowed, table, mail) {
        Ok(Some(after)) => Ok(after),
        Ok(None) => Err(Ending::Limited),
        // room (9) is all that a delivery is refused for
        Err(_) => Err(Ending::Full),
    }
}

// Delivers the oldest entry again and again, on buffers that were judged. In the end the spent entries go out.
fn deliver_all(limit: u64, table: &mut [u8], mail: &mut [u8]) -> Drained
    requires { drain_refusal (buffers table.old mail.old) ≡ 0 }
    ensures { drain_result result table.new mail.new ≡ drain limit table.old mail.old }
{
    let mut made: u64 = 0;
    let mut gap = Gap { from: 0, to: 0 };
    let ending = loop {
        match take_turn(limit, made, gap, table, mail) {
            Ok(after) => {
                gap = after;
                made += 1;
            }
            Err(ending) => break ending,
        }
    };
    drain::close_gap(mail, gap);
    Drained::accepted(made, ending)
}

// Delivers the oldest entry again and again: until no mail is left, the next delivery would be refused with 9, or so many are made.
#[tactic(auto, using(crate::proofs::Draining::refusals))]
pub fn lockmgr_drain(limit: u64, table: &mut [u8], mail: &mut [u8]) -> Drained
    ensures { drain_result result table.new mail.new ≡ drain limit table.old mail.old }
{
    match judge_buffers(table, mail) {
        Ok(()) => deliver_all(limit, table, mail),
        Err(cause) => Drained::refused(cause.into()),
    }
}
