// The mailbox (01: mail) in a lent buffer: well-formedness, the earliest entry of a route, take, append.
#![tactic(auto)]

ghost use Rattle.std.specs.Prelude.{◌≡◌, true, cond, List, [], ◌∷◌, ◌++◌, map, ◌≤◌, ◌<◌, eqb, length, MatchOption};
ghost use Rattle.lists.specs.Lists.{remove_at, without_places};
ghost use Rattle.message.specs.declared.Message.{Message};
ghost use Rattle.message.specs.Outbox.{message};
ghost use Rattle.entry.specs.Entry.{Entry, width, to_item, sent, earliest, seen_by_item, seen_by_session};
ghost use Rattle.mailbox.specs.Layout.{header, max_capacity, size, route_place, body_place, capacity_of, count_of, sized, entry_at, entries_of, route_of, well_formed, mail_bytes, Kept, Stands, Room};

use entry::WIDTH;
use message::Message;

// The two directions: session to item, item to session. A direction, a session and an item are a route.
pub use entry::{Route, TO_ITEM, TO_SESSION};

pub const MAX_CAPACITY: usize = 4096;

// C and the number of entries stand in the header, two bytes each.
const HEADER: usize = 4;

const CAPACITY_PLACE: usize = 0;

const COUNT_PLACE: usize = 2;

// The bytes of an entry, route and body.
const ENTRY_SIZE: usize = 2 * WIDTH;

// The bytes of the largest mailbox.
pub const MAX_SIZE: usize = HEADER + ENTRY_SIZE * MAX_CAPACITY;

// The bytes of a mailbox of capacity c.
pub fn size(c: usize) -> usize
    requires { c < 65536 }
    ensures { result ≡ size c }
{
    HEADER + ENTRY_SIZE * c
}

// Where the route of entry k stands, k from 0. Behind c routes stand the bodies.
fn route_place(k: usize) -> usize
    requires { k ≤ max_capacity }
    ensures { result ≡ route_place k }
{
    HEADER + WIDTH * k
}

// Where the body of entry k stands in a mailbox of capacity c.
fn body_place(c: usize, k: usize) -> usize
    requires { (c ≤ max_capacity) × (k ≤ max_capacity) }
    ensures { result ≡ body_place c k }
{
    HEADER + WIDTH * c + WIDTH * k
}

// That the bytes are those of a mailbox (Kept, Stands) is a clause of each function below and no invariant of a type: C lends the bytes,
// and what is promised names each byte that is left.

// C and the number of entries.
pub fn capacity(m: &[u8]) -> usize
    requires { header ≤ length m.now }
    ensures { result ≡ capacity_of m.now }
{
    // By `as`, here and below, in range as proved: std has no From for it.
    buffer::get16(m, CAPACITY_PLACE) as usize
}

pub fn count(m: &[u8]) -> usize
    requires { header ≤ length m.now }
    ensures { result ≡ count_of m.now }
{
    buffer::get16(m, COUNT_PLACE) as usize
}

// Whether C is within its bounds and the length is that of C.
pub fn sized(m: &[u8]) -> bool
    ensures { result ≡ sized m.now }
{
    if m.len() < HEADER {
        return false;
    }
    let c = capacity(m);
    (c >= 1) & (c <= MAX_CAPACITY) & (m.len() == size(c))
}

// Whether a mailbox for so many sessions and items is well-formed.
#[tactic(auto, using(crate::proofs::Laws::lengths))]
pub fn well_formed(m: &[u8], sessions: u8, items: u8) -> bool
    requires { sized m.now ≡ true }
    ensures { result ≡ well_formed sessions items m.now }
{
    let c = capacity(m);
    let n = count(m);
    if n > c {
        return false;
    }
    let left = WIDTH * (c - n);
    entry::well_formed(m, HEADER, route_place(c), n, sessions, items)
        && buffer::is_zero(m, route_place(n), left)
        && buffer::is_zero(m, body_place(c, n), left)
}

// The place of the earliest entry of a route.
#[tactic(auto, using(crate::proofs::Laws::lengths))]
pub fn earliest(m: &[u8], route: Route) -> Option<usize>
    requires { Kept m.now }
    ensures { MatchOption result
        (earliest route.direction route.session route.item (entries_of m.now) ≡ length (entries_of m.now))
        (λ k. (k ≡ earliest route.direction route.session route.item (entries_of m.now)) × (k < count_of m.now)) }
{
    entry::first(m, HEADER, count(m), route)
}

// The places of the session and the item in a route.
const SESSION_SIDE: usize = 1;

const ITEM_SIDE: usize = 2;

// The route of entry k.
#[tactic(auto, using(crate::proofs::Laws::lengths), unfolding(crate::specs::Layout::entry_at))]
pub fn route_of(m: &[u8], k: usize) -> Route
    requires { Stands m.now k }
    ensures { result ≡ route_of (entry_at m.now k) }
{
    let at = route_place(k);
    Route {
        direction: m[at],
        session: m[at + SESSION_SIDE],
        item: m[at + ITEM_SIDE],
    }
}

// Entry k as a message from one side of its route: the place in it of the byte of the party at the other end.
#[tactic(auto, using(crate::proofs::Laws::lengths), unfolding(crate::specs::Layout::entry_at))]
fn message(m: &[u8], k: usize, side: usize) -> Message
    requires { Stands m.now k × (side < width) }
    ensures { (side ≡ 1 → result ≡ seen_by_item (entry_at m.now k)) × (side ≡ 2 → result ≡ seen_by_session (entry_at m.now k)) }
{
    let at = route_place(k);
    let to = body_place(capacity(m), k);
    Message::new(m[at + side], m[to], m[to + 1], m[to + 2])
}

// Entry k as the item that receives it sees it.
pub fn message_to_item(m: &[u8], k: usize) -> Message
    requires { Stands m.now k }
    ensures { result ≡ seen_by_item (entry_at m.now k) }
{
    message(m, k, SESSION_SIDE)
}

// Entry k as the session that receives it sees it.
pub fn message_to_session(m: &[u8], k: usize) -> Message
    requires { Stands m.now k }
    ensures { result ≡ seen_by_session (entry_at m.now k) }
{
    message(m, k, ITEM_SIDE)
}

// Takes out the entries from place a on and before place b; the rest close up.
#[tactic(auto, using(crate::proofs::Laws::lengths))]
pub fn cut(m: &mut [u8], a: usize, b: usize)
    requires { Kept m.old × (a ≤ b) × (b ≤ count_of m.old) }
    ensures { m.new ≡ mail_bytes (capacity_of m.old) (without_places a b (entries_of m.old)) }
{
    let c = capacity(m);
    let n = count(m);
    let by = WIDTH * (b - a);
    let len = WIDTH * (n - a);
    entry::cut(m, route_place(a), by, len);
    entry::cut(m, body_place(c, a), by, len);
    buffer::put16(m, COUNT_PLACE, (n - (b - a)) as u64);
}

// Takes entry k out; the rest close up.
pub fn remove(m: &mut [u8], k: usize)
    requires { Stands m.old k }
    ensures { m.new ≡ mail_bytes (capacity_of m.old) (remove_at k (entries_of m.old)) }
{
    cut(m, k, k + 1);
}

// Adds an entry to the n that a mailbox of capacity c holds.
fn add(m: &mut [u8], c: usize, n: usize, route: Route, msg: &Message)
    requires { (length m.old ≡ size c) × (c ≤ max_capacity) × (n < c) }
    ensures { (l : List Entry) → length l ≡ n → m.old ≡ mail_bytes c l
        → m.new ≡ mail_bytes c (l ++ (record { direction = route.direction; session = route.session; item = route.item; kind = msg.now.kind; a = msg.now.a; b = msg.now.b } ∷ [])) }
{
    entry::put(
        m,
        route_place(n),
        route.direction,
        route.session,
        route.item,
    );
    entry::put(m, body_place(c, n), msg.kind, msg.a, msg.b);
    buffer::put16(m, COUNT_PLACE, (n + 1) as u64);
}

// The route of what a session (direction 1) or an item (direction 2) sends to a peer.
fn route_between(direction: u8, party: u8, peer: u8) -> Route
    ensures { result ≡ record { direction = direction; session = cond (eqb direction to_item) party peer; item = cond (eqb direction to_item) peer party } }
{
    if direction == TO_ITEM {
        Route {
            direction,
            session: party,
            item: peer,
        }
    } else {
        Route {
            direction,
            session: peer,
            item: party,
        }
    }
}

// Adds what a session (direction 1) or an item (direction 2) sends, in order. Direction and party stay two bytes: `sent`, which the promise names, takes them so.
#[tactic(auto, using(crate::proofs::Laws::lengths))]
pub fn post(m: &mut [u8], direction: u8, party: u8, out: &[Message])
    requires { Room m.old out.now }
    ensures { m.new ≡ mail_bytes (capacity_of m.old) (entries_of m.old ++ map (sent direction party) out.now) }
{
    let c = capacity(m);
    let count = count(m);
    for (i, msg) in out.iter().enumerate() {
        let route = route_between(direction, party, msg.peer);
        add(m, c, count + i, route, msg);
    }
}

// Writes an empty mailbox of capacity c.
pub fn clear(m: &mut [u8], c: usize)
    requires { (1 ≤ c) × (c ≤ max_capacity) × (length m.old ≡ size c) }
    ensures { m.new ≡ mail_bytes c [] }
{
    buffer::clear(m);
    buffer::put16(m, CAPACITY_PLACE, c as u64);
}
