// The text of a cycle of waits (02: the ring in words): a line for each member, from the most senior on.
#![tactic(auto)]

ghost use Rattle.std.specs.Prelude.{◌≡◌, ◌≤◌, length};
ghost use Rattle.std.specs.Iterator.{YieldsFirst, item_count};
ghost use Rattle.buffer.specs.Bytes.{splice};
ghost use Rattle.table.specs.Layout.{sessions_of, Formed};
ghost use Rattle.waits.specs.OnTable.{cycle_length, leader};
ghost use Rattle.refusal.specs.Refusal.{first};
ghost use Rattle.cycletext.specs.Text.{line, lines};
ghost use Rattle.cycletext.specs.OnTable.{text, text_causes, described, text_answer, unless_refused};
ghost use Rattle.cycletext.specs.Told.{told};
ghost use Rattle.cycletext.specs.Parts.{longest_line, OnCycle, waits_from};

use refusal::Refusal;
use session::Session;
use waits::{Wait, WaitGraph};

// No text is longer, so that a buffer of this length needs no counting.
const LONGEST: usize = 3045;

// The answer of a call that writes a text, as C reads it.
#[repr(C)]
#[derive(Clone, Copy)]
pub struct Text {
    pub refusal: u8,
    pub length: u16,
}

impl Text {
    // Takes any number, as it always did: a Refusal would ask more.
    pub fn refused(refusal: u8) -> Text
        ensures { result ≡ text_answer refusal 0 }
    {
        Text { refusal, length: 0 }
    }
}

// The length of the line of a wait.
#[tactic(auto, using(crate::proofs::Laws::length_line, crate::proofs::Laws::short_digits))]
fn line_length(w: Wait) -> usize
    ensures { (result ≡ length (line w)) × (result ≤ longest_line) }
{
    let words = b"session  waits for item  held by session \n".len();
    words
        + text::decimal_length(u64::from(w.session))
        + text::decimal_length(u64::from(w.item))
        + text::decimal_length(u64::from(w.holder))
}

// Writes the line of a wait at the start of the buffer, and answers how much it wrote.
#[tactic(auto, using(crate::proofs::Laws::length_line))]
fn put_line(out: &mut [u8], w: Wait) -> usize
    requires { length (line w) ≤ length out.old }
    ensures { (out.new ≡ splice out.old 0 (line w)) × (result ≡ length (line w)) }
{
    let mut at = buffer::put_bytes(out, 0, b"session ");
    at = text::put_decimal(out, at, u64::from(w.session));
    at = buffer::put_bytes(out, at, b" waits for item ");
    at = text::put_decimal(out, at, u64::from(w.item));
    at = buffer::put_bytes(out, at, b" held by session ");
    at = text::put_decimal(out, at, u64::from(w.holder));
    buffer::put_bytes(out, at, b"\n")
}

// Waits of a cycle, one after another: from that of `session` on, as many as are left.
#[derive(Clone, Copy)]
struct Around<'a> {
    graph: &'a WaitGraph<'a>,
    session: u8,
    left: u8,
    ghost on: { OnCycle graph.now.table.now session },
}

impl<'a> Iterator for Around<'a> {
    type Item = Wait;

    ghost next_gives = { YieldsFirst (λ s. waits_from s.graph.now.table.now s.left s.session) };

    ghost remaining = { item_count (λ s. waits_from s.graph.now.table.now s.left s.session) };

    fn next(&mut self) -> Option<Wait> {
        if self.left == 0 {
            return None;
        }
        // a session on a cycle waits, so this goes on
        let w = self.graph.next(self.session)?;
        self.session = w.holder;
        self.left -= 1;
        Some(w)
    }
}

// The most senior member of the cycle that is gone round once.
fn leader(round: Around) -> u8
    requires { round.left ≡ cycle_length round.graph.now.table.now round.session }
    ensures { result ≡ leader round.entry.graph.now.table.now round.entry.session }
{
    let ranks = table::ranks(round.graph.table);
    let mut first = round.session;
    for w in round {
        if Session::senior(ranks, w.session, first) {
            first = w.session;
        }
    }
    first
}

// The length of the lines of these waits.
fn lines_length(round: Around) -> usize
    ensures { result ≡ length (lines (waits_from round.entry.graph.now.table.now round.entry.left round.entry.session)) }
{
    let mut length: usize = 0;
    for w in round {
        length += line_length(w);
    }
    length
}

// Writes these lines, each into the part of the buffer that is still free, and answers how much it wrote.
fn put_lines(out: &mut [u8], round: Around) -> usize
    requires { length (lines (waits_from round.graph.now.table.now round.left round.session)) ≤ length out.old }
    ensures bytes { out.new ≡ splice out.old 0 (lines (waits_from round.entry.graph.now.table.now round.entry.left round.entry.session)) }
    ensures count { result ≡ length (lines (waits_from round.entry.graph.now.table.now round.entry.left round.entry.session)) }
{
    let mut free: usize = 0;
    for w in round {
        free += put_line(&mut out[free..], w);
    }
    free
}

// Writes the text of the cycle on which session `me` lies at the start of the buffer: its length.
pub fn describe(me: u8, t: &[u8], out: &mut [u8]) -> Result<u16, Refusal>
    requires { Formed t.now × (1 ≤ me) × (me ≤ sessions_of t.now) }
    ensures { described (told result) out.new ≡ unless_refused (first (text_causes me t.now out.old)) (text t.now me) out.old }
{
    let graph = WaitGraph::of(t);
    let Some(n) = graph.cycle_length(me) else {
        return Err(Refusal::NoCycle);
    };
    let mut round = Around {
        graph: &graph,
        session: me,
        left: n,
    };
    round.session = leader(round);
    if out.len() < LONGEST && out.len() < lines_length(round) {
        return Err(Refusal::ShortBuffer);
    }
    // By `as`, here and below, in range as proved: std has no From for it.
    let length = put_lines(out, round) as u16;
    Ok(length)
}
