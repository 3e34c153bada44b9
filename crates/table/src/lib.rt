// The table in a lent buffer: well-formedness, load and store of every record, and the ranks.
#![tactic(auto)]

ghost use Rattle.std.specs.Prelude.{◌≡◌, true, ◌≤◌, length};
ghost use Rattle.table.specs.Layout.{header, session_place, items_start, item_place, ranks_place, ranks_end, size, sessions_of, items_of, sized, session, with_session, item, with_item, ranks, well_formed, HasSession, HasItem, config, Bounded, started};

use item::Item;
use message::{MAX_ITEMS, MAX_SESSIONS};
use session::Session;

// S and M stand in the header.
const HEADER: usize = 2;

const SESSIONS_PLACE: usize = 0;

const ITEMS_PLACE: usize = 1;

// The tail of a record: bytes behind it that the rules do not own.
const SESSION_TAIL: usize = 0;

const ITEM_TAIL: usize = 0;

// From one record to the next.
const SESSION_STRIDE: usize = Session::SIZE + SESSION_TAIL;

const ITEM_STRIDE: usize = Item::SIZE + ITEM_TAIL;

// The bytes of the largest table.
pub const MAX_SIZE: usize = HEADER
    + SESSION_STRIDE * MAX_SESSIONS
    + ITEM_STRIDE * MAX_ITEMS
    + MAX_SESSIONS;

// S and M.
pub fn sessions(t: &[u8]) -> u8
    requires { header ≤ length t.now }
    ensures { result ≡ sessions_of t.now }
{
    t[SESSIONS_PLACE]
}

pub fn items(t: &[u8]) -> u8
    requires { header ≤ length t.now }
    ensures { result ≡ items_of t.now }
{
    t[ITEMS_PLACE]
}

// S and M are two arguments of the places below and no struct: some places ask for S alone, and `size` and `clear` have them before there is a table.

// Where the item records begin, behind s sessions.
fn items_start(s: u8) -> usize
    ensures { result ≡ items_start s }
{
    HEADER + SESSION_STRIDE * usize::from(s)
}

// Where the ranks begin, behind the records of m items, and where they end.
fn ranks_place(s: u8, m: u8) -> usize
    ensures { result ≡ ranks_place s m }
{
    items_start(s) + ITEM_STRIDE * usize::from(m)
}

fn ranks_end(s: u8, m: u8) -> usize
    ensures { result ≡ ranks_end s m }
{
    ranks_place(s, m) + usize::from(s)
}

// The bytes of a table with s sessions and m items.
pub fn size(s: u8, m: u8) -> usize
    ensures { result ≡ size s m }
{
    ranks_end(s, m)
}

// Where the record of session k stands.
fn session_place(k: u8) -> usize
    requires { 1 ≤ k }
    ensures { result ≡ session_place k }
{
    HEADER + SESSION_STRIDE * usize::from(k - 1)
}

// Where the record of item x stands, behind s sessions.
fn item_place(s: u8, x: u8) -> usize
    requires { 1 ≤ x }
    ensures { result ≡ item_place s x }
{
    items_start(s) + ITEM_STRIDE * usize::from(x - 1)
}

// Whether S and M are within their bounds and the length is that of S and M.
pub fn sized(t: &[u8]) -> bool
    ensures { result ≡ sized t.now }
{
    if t.len() < HEADER {
        return false;
    }
    let s = sessions(t);
    let m = items(t);
    (s >= 1)
        & (usize::from(s) <= MAX_SESSIONS)
        & ((m >= 1) & (usize::from(m) <= MAX_ITEMS))
        & (t.len() == size(s, m))
}

// The ranks, from session 1 on.
#[tactic(auto, using(crate::proofs::Laws::places), unfolding(crate::specs::Layout::ranks))]
pub fn ranks(t: &[u8]) -> &[u8]
    requires { sized t.now ≡ true }
    ensures { result.now ≡ ranks t.now }
{
    let s = sessions(t);
    let m = items(t);
    let from = ranks_place(s, m);
    let end = ranks_end(s, m);
    &t[from..end]
}

// Whether every record is well-formed, and the ranks.
#[tactic(auto, using(crate::proofs::Laws::places))]
pub fn well_formed(t: &[u8]) -> bool
    requires { sized t.now ≡ true }
    ensures { result ≡ well_formed t.now }
{
    let s = sessions(t);
    let m = items(t);
    let limits = form::Limits::of(s, m);
    for k in 0..usize::from(s) {
        if !form::session(t, HEADER + SESSION_STRIDE * k, &limits) {
            return false;
        }
    }
    let from = items_start(s);
    for x in 0..usize::from(m) {
        if !form::item(t, from + ITEM_STRIDE * x, &limits) {
            return false;
        }
    }
    form::ranks(ranks(t))
}

// Sessions and items keep a load and a store each: each of the four has its own definition, and an item's place needs S.
// That a record is there (HasSession, HasItem) is a clause and no invariant of a type, for the same reason as in mailbox: the bytes are lent.

// The record of session k.
#[tactic(auto, using(crate::proofs::Laws::places), unfolding(crate::specs::Layout::session))]
pub fn session(t: &[u8], k: u8) -> Session
    requires { HasSession t.now k }
    ensures { result ≡ session t.now k }
{
    Session::load(t, session_place(k))
}

// Replaces the record of session k.
#[tactic(auto, using(crate::proofs::Laws::places), unfolding(crate::specs::Layout::with_session))]
pub fn put_session(t: &mut [u8], k: u8, s: Session)
    requires { HasSession t.old k }
    ensures { t.new ≡ with_session t.old k s }
{
    s.store(t, session_place(k));
}

// The record of item x.
#[tactic(auto, using(crate::proofs::Laws::places), unfolding(crate::specs::Layout::item))]
pub fn item(t: &[u8], x: u8) -> Item
    requires { HasItem t.now x }
    ensures { result ≡ item t.now x }
{
    Item::load(t, item_place(sessions(t), x))
}

// The holder of item x, or 0.
#[tactic(auto, using(crate::proofs::Laws::places), unfolding(crate::specs::Layout::item))]
pub fn holder(t: &[u8], x: u8) -> u8
    requires { HasItem t.now x }
    ensures { result ≡ (item t.now x).holder }
{
    t[item_place(sessions(t), x)]
}

// How many sessions wait for item x.
#[tactic(auto, using(crate::proofs::Laws::places), unfolding(crate::specs::Layout::item))]
pub fn waiting(t: &[u8], x: u8) -> u8
    requires { HasItem t.now x }
    ensures { result ≡ (item t.now x).waiting }
{
    t[item_place(sessions(t), x) + Item::WAITING_PLACE]
}

// Replaces the record of item x.
#[tactic(auto, using(crate::proofs::Laws::places), unfolding(crate::specs::Layout::with_item))]
pub fn put_item(t: &mut [u8], x: u8, i: Item)
    requires { HasItem t.old x }
    ensures { t.new ≡ with_item t.old x i }
{
    let at = item_place(sessions(t), x);
    i.store(t, at);
}

// Writes the table of a lock manager that starts, with so many sessions and items, and these ranks.
pub fn clear(t: &mut [u8], sessions: u8, items: u8, ranks: &[u8])
    requires { Bounded (config sessions items ranks.now) × (length t.old ≡ size sessions items) }
    ensures { t.new ≡ started (config sessions items ranks.now) }
{
    buffer::clear(t);
    t[SESSIONS_PLACE] = sessions;
    t[ITEMS_PLACE] = items;
    for k in 0..usize::from(sessions) {
        t[HEADER + SESSION_STRIDE * k] = Session::GROWING;
    }
    buffer::put_bytes(t, ranks_place(sessions, items), ranks);
}
