// Whether the bytes of a record are well-formed, and a list of ranks.
#![tactic(auto)]

ghost use Rattle.std.specs.Prelude.{◌≡◌, not, ◌&&◌, ℕ, ◌+◌, ◌≤◌, ◌<◌, eqb, leb, length, get_or, take, drop};
ghost use Rattle.bitset.specs.Bitset.{full};
ghost use Rattle.buffer.specs.Bytes.{slice};
ghost use Rattle.lists.specs.Lists.{all_of, distinct, member};
ghost use Rattle.message.specs.Limits.{max_sessions, max_items};
ghost use Rattle.session.specs.Record as SessionRecord;
ghost use Rattle.session.specs.Seniority;
ghost use Rattle.item.specs.Record as ItemRecord;
ghost use Rattle.form.specs.Rows.{limits_of};

use item::Item;
use message::MAX_SESSIONS;
use session::Session;

// The juniors of a session and the queue of an item are rows of MAX_SESSIONS bytes; what they are compared with is two rows.
pub const TWO_ROWS: usize = 2 * MAX_SESSIONS;

// What the records of a table are tested by: how many sessions and items there are, the mask that has every item, and a row of the number of sessions with a row of zeros behind it.
#[derive(Drop)]
pub struct Limits {
    pub sessions: u8,
    pub items: u8,
    pub top: u64,
    pub rows: [u8; TWO_ROWS],
    pub ghost few: { sessions ≤ max_sessions },
    pub ghost whole: { top ≡ full items },
    pub ghost filled: { rows ≡ limits_of sessions },
}

impl Limits {
    pub fn of(sessions: u8, items: u8) -> Limits
        requires { (sessions ≤ max_sessions) × (items ≤ max_items) }
        ensures { (result.sessions ≡ sessions) × (result.items ≡ items) }
    {
        let mut rows = [0u8; TWO_ROWS];
        rows[..MAX_SESSIONS].fill(sessions);
        Limits {
            sessions,
            items,
            top: bitset::full(items),
            rows,
        }
    }
}

// The row at `at`.
fn row_at(t: &[u8], at: usize) -> &[u8]
    requires { at + max_sessions ≤ length t.now }
    ensures { (result.now ≡ slice t.now at max_sessions) × (length result.now ≡ max_sessions) }
{
    &t[at..at + MAX_SESSIONS]
}

// Whether of a row the first n bytes are sessions or zero, and the others zero.
fn row(l: &[u8], n: usize, limits: &Limits) -> bool
    requires { (length l.now ≡ max_sessions) × (n ≤ max_sessions) }
    ensures { result ≡ all_of (λ b. leb b limits.now.sessions) (take n l.now) && all_of (λ b. eqb b 0) (drop n l.now) }
{
    let from = MAX_SESSIONS - n;
    l.iter()
        .zip(&limits.rows[from..from + MAX_SESSIONS])
        .fold(true, |ok, (b, limit)| ok & (b <= limit))
}

// Whether the session record at `at` is well-formed.
pub fn session(t: &[u8], at: usize, limits: &Limits) -> bool
    requires { at + SessionRecord.size ≤ length t.now }
    ensures { result ≡ SessionRecord.well_formed limits.now.sessions limits.now.items (SessionRecord.session_at t.now at) }
{
    let s = limits.sessions;
    let stage = t[at];
    let awaited = t[at + Session::AWAITED_PLACE];
    let held = buffer::get64(t, at + Session::HELD_PLACE);
    let staged = (stage >= Session::GROWING) & (stage <= Session::ROLLED_BACK);
    let awaits = (stage == Session::WAITING)
        | (stage == Session::CLEANING)
        | (stage == Session::WITHDRAWING);
    let waits = awaits & ((awaited >= 1) & (awaited <= limits.items));
    let none = !awaits & (awaited == 0);
    let juniors = row_at(t, at + Session::JUNIORS_PLACE);
    staged & (waits | none) & (held <= limits.top) & row(juniors, usize::from(s), limits)
}

// Whether of the sessions in a queue none is zero, none stands there twice and none is h.
fn queue(l: &[u8], h: u8) -> bool
    requires { (h ≤ max_sessions) × ((k : ℕ) → k < length l.now → get_or l.now k 0 ≤ max_sessions) }
    ensures { result ≡ all_of (leb 1) l.now && distinct l.now && not (member h l.now) }
{
    let mut seen = bitset::single(h);
    for &v in l {
        if (v == 0) || bitset::contains(seen, v) {
            return false;
        }
        seen = bitset::insert(seen, v);
    }
    true
}

// Whether a list of ranks is well-formed: one pass, with a mask of those that stand there. So many can be all only if none stands twice.
pub fn ranks(l: &[u8]) -> bool
    requires { length l.now ≤ max_sessions }
    ensures { result ≡ Seniority.well_formed l.now }
{
    let n = l.len();
    let mut used: u64 = 0;
    for &rank in l {
        if (rank == 0) || (n < usize::from(rank)) {
            return false;
        }
        used = bitset::insert(used, rank);
    }
    // By `as`, here and below, in range as proved: std has no From for it.
    used == bitset::full(n as u8)
}

// Whether the item record at `at` is well-formed.
pub fn item(t: &[u8], at: usize, limits: &Limits) -> bool
    requires { at + ItemRecord.size ≤ length t.now }
    ensures { result ≡ ItemRecord.well_formed limits.now.sessions (ItemRecord.item_at t.now at) }
{
    let s = limits.sessions;
    let h = t[at];
    let n = usize::from(t[at + Item::WAITING_PLACE]);
    if (h > s) || (n > MAX_SESSIONS) {
        return false;
    }
    let line = row_at(t, at + Item::QUEUE_PLACE);
    row(line, n, limits) && queue(&line[..n], h)
}
