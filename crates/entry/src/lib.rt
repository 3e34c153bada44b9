// The entries of the mailbox (01: mail), three bytes of a route and three of a body each: their form, the search for a route, bytes taken out and put in.
#![tactic(auto)]

ghost use Rattle.std.specs.Prelude.{◌≡◌, true, false, [], ◌∷◌, ◌+◌, ◌*◌, ◌≤◌, ◌<◌, length, drop, MatchOption};
ghost use Rattle.buffer.specs.Bytes.{slice, splice, padded};
ghost use Rattle.lists.specs.Lists.{every_below};
ghost use Rattle.entry.specs.Entry as Entry;
ghost use Rattle.entry.specs.Entry.{width, entry_from};
ghost use Rattle.entry.specs.Cells.{block_entries, block_cells, agree, cell, cell_at, thrice, misses, differs, differ_cell};

use message::Message;

// The two directions: session to item, item to session.
// Kept as numbers: what is promised of a route names the byte itself, whatever it is, and a route is read from mail that need not be well-formed.
pub const TO_ITEM: u8 = 1;

pub const TO_SESSION: u8 = 2;

// The route of an entry.
#[derive(Clone, Copy)]
pub struct Route {
    pub direction: u8,
    pub session: u8,
    pub item: u8,
}

// The bytes of a route, and those of a body.
pub const WIDTH: usize = 3;

// A block of entries, and its bytes in either array.
const BLOCK_ENTRIES: usize = 16;

const BLOCK_CELLS: usize = 48;

// Whether direction, session and body agree, for a kind of at most 10; with no branch.
#[tactic(auto, unfolding(crate::specs::Cells::agree))]
fn agree(d: u8, t: u8, k: u8, a: u8, b: u8) -> bool
    ensures { result ≡ agree d t k a b }
{
    let both_ways = (k == Message::PROBE) | (k == Message::CLEAN);
    let carries = both_ways | (k == Message::ABORT);
    let to_item = (d == TO_ITEM) & (k >= Message::REQUEST) & (k <= Message::WITHDRAW);
    let to_session = (d == TO_SESSION) & (both_ways | (k >= Message::GRANT));
    (to_item | to_session)
        & ((a == 0) ^ carries)
        & ((b == 0) ^ carries)
        & ((k != Message::ABORT) | (a == t))
}

// That a place lies within the mail is a clause of each function: a slice cut for every entry is no plainer, and is cut again for the next.

// The byte of a route at `at` and the byte of a body at `to`.
fn cell(m: &[u8], at: usize, to: usize, top: u8, high: u8, skip: u8) -> bool
    requires { (at + 2 ≤ length m.now) × (to + 3 ≤ length m.now) }
    ensures { result ≡ cell m.now at to top high skip }
{
    let r = m[at];
    let k = m[to];
    let agrees = agree(r, m[at + 1], k, m[to + 1], m[to + 2]);
    (r >= 1) & (r <= top) & (k <= high) & ((skip == 1) | agrees)
}

// Three numbers, for each entry of a block.
fn thrice(a: u8, b: u8, c: u8) -> [u8; BLOCK_CELLS]
    ensures { result ≡ thrice block_entries a b c }
{
    let mut r = [0u8; BLOCK_CELLS];
    for i in 0..BLOCK_ENTRIES {
        let at = WIDTH * i;
        r[at] = a;
        r[at + 1] = b;
        r[at + 2] = c;
    }
    r
}

// What the bytes of a block are tested by: the highest of the routes, the highest of the bodies, and 1 where no entry starts.
// `skips` is kept as a row of bytes, like the other two: the loop compares rows, and a flag would be one byte too.
#[derive(Drop)]
struct Bounds {
    tops: [u8; BLOCK_CELLS],
    highs: [u8; BLOCK_CELLS],
    skips: [u8; BLOCK_CELLS],
}

// A block, cell by cell: no early exit, so that the loop is done by vectors.
fn block(m: &[u8], at: usize, to: usize, bounds: &Bounds) -> bool
    requires { (at + block_cells + 2 ≤ length m.now) × (to + block_cells + 2 ≤ length m.now) }
    ensures { result ≡ every_below block_cells (cell_at m.now bounds.now.tops bounds.now.highs bounds.now.skips at to) }
{
    let mut ok = true;
    for i in 0..BLOCK_CELLS {
        ok &= cell(
            m,
            at + i,
            to + i,
            bounds.tops[i],
            bounds.highs[i],
            bounds.skips[i],
        );
    }
    ok
}

// One entry, with no branch.
fn entry(m: &[u8], at: usize, to: usize, s: u8, x: u8) -> bool
    requires { (at + width ≤ length m.now) × (to + width ≤ length m.now) }
    ensures { result ≡ Entry.well_formed s x (entry_from m.now at to) }
{
    let t = m[at + 1];
    let v = m[at + 2];
    let a = m[to + 1];
    let b = m[to + 2];
    cell(m, at, to, TO_SESSION, Message::WITHDRAWN, 0)
        & ((t >= 1) & (t <= s) & (a <= s))
        & ((v >= 1) & (v <= x) & (b <= s))
}

// A number of entries, all of them well-formed: whole blocks are passed.
// Its loop and that of `passed` are kept apart: their tests read different bytes, here those of both arrays, there the routes alone.
fn formed(m: &[u8], at: usize, to: usize, n: usize, s: u8, x: u8) -> usize
    requires { (at + width * n ≤ length m.now) × (to + width * n ≤ length m.now) }
    ensures { (result ≤ n) × (every_below result (λ k. Entry.well_formed s x (entry_from m.now (at + width * k) (to + width * k))) ≡ true) }
{
    if n <= BLOCK_ENTRIES {
        return 0;
    }
    let bounds = Bounds {
        tops: thrice(TO_SESSION, s, x),
        highs: thrice(Message::WITHDRAWN, s, s),
        skips: thrice(0, 1, 1),
    };
    let blocks = (n - 1) / BLOCK_ENTRIES;
    for k in 0..blocks {
        let p = BLOCK_CELLS * k;
        if !block(m, at + p, to + p, &bounds) {
            return BLOCK_ENTRIES * k;
        }
    }
    BLOCK_ENTRIES * blocks
}

// Whether the n entries whose routes stand from `at` on and whose bodies stand from `to` on are well-formed, for s sessions and x items.
pub fn well_formed(m: &[u8], at: usize, to: usize, n: usize, s: u8, x: u8) -> bool
    requires { (at + width * n ≤ length m.now) × (to + width * n ≤ length m.now) }
    ensures { result ≡ every_below n (λ k. Entry.well_formed s x (entry_from m.now (at + width * k) (to + width * k))) }
{
    for i in formed(m, at, to, n, s, x)..n {
        let p = WIDTH * i;
        if !entry(m, at + p, to + p, s, x) {
            return false;
        }
    }
    true
}

// Whether the three bytes at `at` are not the route: the item is looked at first, then the session, the direction last.
fn off(m: &[u8], at: usize, route: Route) -> bool
    requires { at + width ≤ length m.now }
    ensures { result ≡ misses m.now route.direction route.session route.item at }
{
    (m[at + 2] != route.item) || (m[at + 1] != route.session) || (m[at] != route.direction)
}

// Whether the route at `at` differs from the one searched for: in its item, from depth 2 on in its session too, at depth 3 in its direction too; with no branch.
// `depth` is kept as a number: it is compared by >= in the loop that is done by vectors. `off` stays beside it: that one has early exits, this one no branch.
#[tactic(auto, unfolding(crate::specs::Cells::differs))]
fn differs(m: &[u8], at: usize, depth: u8, route: Route) -> bool
    requires { at + width ≤ length m.now }
    ensures { result ≡ differs m.now depth route.direction route.session route.item at }
{
    (m[at + 2] != route.item)
        | ((depth >= 2) & (m[at + 1] != route.session))
        | ((depth >= 3) & (m[at] != route.direction))
}

// Whether every entry of a block differs so. A loop of its own beside `block`: one for both would take a closure, and a law for each test.
fn block_differs(m: &[u8], at: usize, depth: u8, route: Route, skips: &[u8; BLOCK_CELLS]) -> bool
    requires { at + block_cells + 2 ≤ length m.now }
    ensures { result ≡ every_below block_cells (differ_cell m.now skips.now depth route.direction route.session route.item at) }
{
    let mut ok = true;
    for i in 0..BLOCK_CELLS {
        ok &= (skips[i] == 1) | differs(m, at + i, depth, route);
    }
    ok
}

// A number of entries, none of them on the route: the first `from`, of which that is given, and the blocks behind them in which every entry differs.
fn passed(
    m: &[u8],
    at: usize,
    from: usize,
    n: usize,
    depth: u8,
    route: Route,
    skips: &[u8; BLOCK_CELLS],
) -> usize
    requires { (at + width * n ≤ length m.now) × (skips.now ≡ thrice block_entries 0 1 1) × (from ≤ n) × (every_below from (λ k. misses m.now route.direction route.session route.item (at + width * k)) ≡ true) }
    ensures { (result ≤ n) × (every_below result (λ k. misses m.now route.direction route.session route.item (at + width * k)) ≡ true) }
{
    let blocks = (n - from).saturating_sub(1) / BLOCK_ENTRIES;
    for k in 0..blocks {
        let i = from + BLOCK_ENTRIES * k;
        if !block_differs(m, at + WIDTH * i, depth, route, skips) {
            return i;
        }
    }
    from + BLOCK_ENTRIES * blocks
}

// The place of the first of n entries that is on the route; the routes stand from `at` on.
// Blocks are passed by the item alone up to one that has it, from there by item and session up to one that has both in an entry, from there by the whole route; then the entries one by one.
pub fn first(m: &[u8], at: usize, n: usize, route: Route) -> Option<usize>
    requires { at + width * n ≤ length m.now }
    ensures { MatchOption result
        (every_below n (λ k. misses m.now route.direction route.session route.item (at + width * k)) ≡ true)
        (λ r. (r < n) × (every_below r (λ k. misses m.now route.direction route.session route.item (at + width * k)) ≡ true) × (misses m.now route.direction route.session route.item (at + width * r) ≡ false)) }
{
    let skips = thrice(0, 1, 1);
    let by_item = passed(m, at, 0, n, 1, route, &skips);
    let by_session = passed(m, at, by_item, n, 2, route, &skips);
    for i in passed(m, at, by_session, n, 3, route, &skips)..n {
        if !off(m, at + WIDTH * i, route) {
            return Some(i);
        }
    }
    None
}

// Writes a route or a body at `at`.
// Kept by hand: with `copy_from_slice` a release that sends to the longest queue took 1.6 times as long.
pub fn put(m: &mut [u8], at: usize, a: u8, b: u8, c: u8)
    requires { at + width ≤ length m.old }
    ensures { m.new ≡ splice m.old at (a ∷ b ∷ c ∷ []) }
{
    m[at] = a;
    m[at + 1] = b;
    m[at + 2] = c;
}

// Takes a route or a body out at `from`: the rest of the len bytes move down, and zeros follow.
// Kept by hand: `copy_within` takes twice as long for a run of up to 48 bytes, and as long for one of 12,288.
fn cut_one(m: &mut [u8], from: usize, len: usize)
    requires { (from + len ≤ length m.old) × (width ≤ len) }
    ensures { m.new ≡ splice m.old from (padded len (drop width (slice m.old from len))) }
{
    let end = len - WIDTH;
    for n in 0..end {
        m[from + n] = m[from + n + WIDTH];
    }
    put(m, from + end, 0, 0, 0);
}

// Takes `by` bytes out at `from`: the rest of the len bytes move down, and zeros follow. One route or body goes by its own loop, anything else at once.
pub fn cut(m: &mut [u8], from: usize, by: usize, len: usize)
    requires { (from + len ≤ length m.old) × (by ≤ len) }
    ensures { m.new ≡ splice m.old from (padded len (drop by (slice m.old from len))) }
{
    if by == WIDTH {
        cut_one(m, from, len);
        return;
    }
    let end = len - by;
    buffer::move_down(m, from, by, end);
    buffer::put_zeros(m, from + end, by);
}
