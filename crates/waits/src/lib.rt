// Who waits for whom, and the length of a cycle of waits (01: ring).
#![tactic(auto)]

ghost use Rattle.std.specs.Prelude.{◌≡◌, ◌-◌, ◌≤◌};
ghost use Rattle.message.specs.Limits.{max_sessions};
ghost use Rattle.table.specs.Layout.{sessions_of, items_of, Formed, HasItem};
ghost use Rattle.waits.specs.Walk.{walk_from_session, walk_from_item, unless_zero};
ghost use Rattle.waits.specs.OnTable.{locks, cycle_length, next_wait};
ghost use Rattle.waits.specs.Places.{places, places_among, WithPlaces};

use message::MAX_SESSIONS;

// A session, the item at which it waits and the holder of that item.
#[derive(Clone, Copy)]
pub struct Wait {
    pub session: u8,
    pub item: u8,
    pub holder: u8,
}

// A table as a graph of waits: the table, and the places of its sessions, read from it once.
#[derive(Drop)]
pub struct WaitGraph<'a> {
    pub table: &'a [u8],
    pub at: [u8; MAX_SESSIONS],
    pub ghost read: { WithPlaces table.now at },
}

// Given the places of the sessions among the items before x, writes those among the items up to x.
#[tactic(auto, using(crate::proofs::Laws::queued_session))]
fn mark(t: &[u8], at: &mut [u8; MAX_SESSIONS], x: u8)
    requires { Formed t.now × HasItem t.now x × (at.old ≡ places_among (x - 1) t.now) }
    ensures { at.new ≡ places_among x t.now }
{
    let h = table::holder(t, x);
    if h == 0 {
        return;
    }
    if table::waiting(t, x) == 0 {
        return;
    }
    let i = table::item(t, x);
    for s in &i.queue[..usize::from(i.waiting)] {
        let k = usize::from(*s) - 1;
        if at[k] == 0 {
            at[k] = x;
        }
    }
}

// For each session 1 to MAX_SESSIONS the item at which it waits, or 0: one pass over the item records.
// Kept as numbers, with 0 for none: the list of numbers is what is promised. The range is half-open, since `1..=` has two ends and was slower.
pub fn places(t: &[u8]) -> [u8; MAX_SESSIONS]
    requires { Formed t.now }
    ensures { result ≡ places t.now }
{
    let mut at = [0u8; MAX_SESSIONS];
    for x in 1..table::items(t) + 1 {
        mark(t, &mut at, x);
    }
    at
}

impl<'a> WaitGraph<'a> {
    pub fn of(table: &'a [u8]) -> WaitGraph<'a>
        requires { Formed table.now }
        ensures { result.table.now ≡ table.now }
    {
        WaitGraph {
            table,
            at: places(table),
        }
    }

    // The wait of session s, if it waits.
    pub fn next(&self, s: u8) -> Option<Wait>
        requires { (1 ≤ s) × (s ≤ max_sessions) }
        ensures { result ≡ next_wait self.now.table.now s }
    {
        let k = usize::from(s) - 1;
        let item = self.at[k];
        if item == 0 {
            return None;
        }
        Some(Wait {
            session: s,
            item,
            holder: table::holder(self.table, item),
        })
    }

    // 01 names two halves that call each other, with the steps left falling: from session s to its item.
    #[cycle(walk_from_item_walk_from_session)]
    fn walk_from_session(&self, me: u8, s: u8, steps: u8) -> Option<u8>
        requires { (1 ≤ s) × (s ≤ max_sessions) }
        ensures { result ≡ unless_zero (walk_from_session steps (items_of self.now.table.now) (locks self.now.table.now) me s) }
    {
        if steps == 0 {
            return None;
        }
        let w = self.next(s)?;
        self.walk_from_item(me, w.item, steps - 1)
    }

    // From item x, which is held, to its holder.
    #[cycle(walk_from_item_walk_from_session)]
    fn walk_from_item(&self, me: u8, x: u8, steps: u8) -> Option<u8>
        requires { HasItem self.now.table.now x × ((locks self.now.table.now x).holder ≡ 0 → ⊥) }
        ensures { result ≡ unless_zero (walk_from_item steps (items_of self.now.table.now) (locks self.now.table.now) me x) }
    {
        if steps == 0 {
            return None;
        }
        let h = table::holder(self.table, x);
        if h == me {
            return Some(1);
        }
        let r = self.walk_from_session(me, h, steps - 1)?;
        Some(r + 1)
    }

    // The length of the cycle on which session `me` lies, if it lies on one.
    pub fn cycle_length(&self, me: u8) -> Option<u8>
        requires { (1 ≤ me) × (me ≤ sessions_of self.now.table.now) }
        ensures { result ≡ unless_zero (cycle_length self.now.table.now me) }
    {
        self.walk_from_session(me, me, 2 * table::sessions(self.table))
    }
}

// The length of the cycle on which session `me` lies, or 0: the number that C gets.
pub fn cycle_length(t: &[u8], me: u8) -> u8
    requires { Formed t.now × (1 ≤ me) × (me ≤ sessions_of t.now) }
    ensures { result ≡ cycle_length t.now me }
{
    WaitGraph::of(t).cycle_length(me).unwrap_or(0)
}
