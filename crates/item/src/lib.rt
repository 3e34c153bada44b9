// The item record: who holds it, who waits for it, what it does on each message.
#![tactic(auto)]

ghost use Rattle.std.specs.Prelude.{◌≡◌, List, [], ◌∷◌, ◌++◌, ◌+◌, ◌≤◌, ◌<◌, eqb, length, position, IfSome, MatchOption};
ghost use Rattle.lists.specs.Lists.{member, remove_at};
ghost use Rattle.message.specs.declared.Message.{Message};
ghost use Rattle.message.specs.Limits.{max_sessions};
ghost use Rattle.message.specs.Kind;
ghost use Rattle.message.specs.Outbox.{plain};
ghost use Rattle.session.specs.Seniority.{senior};
ghost use Rattle.item.specs.Record.{size, Packed, Joinable, unpacked, packed, lock, free, item_at, put_item};
ghost use Rattle.item.specs.declared.Event.TheVariants.{Nothing};
ghost use Rattle.item.specs.NextHolder.{next_holder};
ghost use Rattle.item.specs.Rules.{after, step_of, dropped, resends, probes, on_withdraw, granted, queued, on_request, on_probe, on_clean, on_rebroadcast, on_release, received};

use message::{MAX_SESSIONS, Message, Outbox};
use session::Session;

// An item record by value: the first `waiting` elements of `queue` wait, in order, and zeros follow.
// `holder` and `waiting` are kept as numbers, as in the record's bytes: a holder 0 is none.
#[derive(Clone, Copy)]
pub struct Item {
    pub holder: u8,
    pub waiting: u8,
    pub queue: [u8; MAX_SESSIONS],
}

// What a message did to the session that sent it, besides its sends.
#[derive(Clone, Copy)]
pub enum Event {
    Nothing,
    // The session was put in the queue.
    Joined,
    // A cycle was declared: its victim and its initiator.
    Declared(u8, u8),
}

// The record that follows, with what it sends and what happened.
#[derive(Clone, Copy)]
pub struct ItemStep {
    pub item: Item,
    pub outbox: Outbox,
    pub event: Event,
}

// That a record is packed, or its queue no longer than its row, is a clause of its functions, and no invariant of the type: table::item answers for a record of any bytes.
impl Item {
    // The places of the fields in the record's bytes, and how many these are.
    pub const WAITING_PLACE: usize = 1;

    pub const QUEUE_PLACE: usize = 2;

    pub const SIZE: usize = Item::QUEUE_PLACE + MAX_SESSIONS;

    // The record whose bytes stand at `at`.
    // Kept beside those of Session, as `store` is: each has its own definition and fields, and a trait would hold two bodies and two clauses.
    pub fn load(t: &[u8], at: usize) -> Item
        requires { at + size ≤ length t.now }
        ensures { result ≡ item_at t.now at }
    {
        Item {
            holder: t[at],
            waiting: t[at + Item::WAITING_PLACE],
            queue: buffer::get_row(t, at + Item::QUEUE_PLACE),
        }
    }

    // Writes the record's bytes at `at`.
    pub fn store(self, t: &mut [u8], at: usize)
        requires { at + size ≤ length t.old }
        ensures { t.new ≡ put_item t.old at self }
    {
        t[at] = self.holder;
        t[at + Item::WAITING_PLACE] = self.waiting;
        buffer::put_row(t, at + Item::QUEUE_PLACE, self.queue);
    }

    // The sessions that wait, in order.
    fn sessions(&self) -> &[u8]
        requires { self.now.waiting ≤ max_sessions }
        ensures { result.now ≡ (unpacked self.now).queue }
    {
        &self.queue[..usize::from(self.waiting)]
    }

    // The place of session t in the queue.
    fn place(self, t: u8) -> Option<usize>
        requires { self.waiting ≤ max_sessions }
        ensures { result ≡ position (λ q. eqb q t) (unpacked self).queue }
    {
        self.sessions().iter().position(|q| *q == t)
    }

    // Whether session t waits in the queue.
    fn waits(self, t: u8) -> bool
        requires { self.waiting ≤ max_sessions }
        ensures { result ≡ member t (unpacked self).queue }
    {
        self.sessions().contains(&t)
    }

    // The place of the next holder, the most senior session of the queue.
    #[tactic(auto, unfolding(crate::specs::NextHolder::next_holder))]
    fn next_holder(self, ranks: &[u8]) -> usize
        requires { (0 < self.waiting) × (self.waiting ≤ max_sessions) }
        ensures { (result ≡ next_holder (senior ranks.now) (unpacked self).queue) × (result < self.waiting) }
    {
        Session::most_senior(ranks, self.sessions())
    }

    // The record without the session at a place of its queue, if there is one.
    fn without(mut self, place: Option<usize>) -> Item
        requires packed { Packed self }
        requires inside { IfSome place (λ k. k < self.waiting) }
        ensures { MatchOption place (result ≡ self) (λ k. result ≡ packed (lock self.holder (remove_at k (unpacked self).queue))) }
    {
        let Some(k) = place else {
            return self;
        };
        let n = usize::from(self.waiting);
        self.queue.copy_within(k + 1..n, k);
        self.queue[n - 1] = 0;
        self.waiting -= 1;
        self
    }

    // The record with session t at the end of its queue.
    fn with(mut self, t: u8) -> Item
        requires { Joinable self }
        ensures { result ≡ packed (lock self.holder ((unpacked self).queue ++ (t ∷ []))) }
    {
        self.queue[usize::from(self.waiting)] = t;
        self.waiting += 1;
        self
    }

    // Behind `out`, probe (R, holder) to the holder for each waiting R senior to it, in queue order.
    fn probes(self, ranks: &[u8], out: &mut Outbox)
        requires { (self.waiting ≤ max_sessions) × (length out.old ≤ 1) }
        ensures { out.new ≡ out.old ++ probes (senior ranks.now) self.holder (unpacked self).queue }
    {
        let holder = self.holder;
        for &r in self.sessions() {
            if Session::senior(ranks, r, holder) {
                out.push(Message::new(holder, Message::PROBE, r, holder));
            }
        }
    }

    // Behind `out`, resend to each waiting session, in queue order.
    fn resends(self, out: &mut Outbox)
        requires { (self.waiting ≤ max_sessions) × (length out.old ≤ 1 + max_sessions) }
        ensures { out.new ≡ out.old ++ resends (unpacked self).queue }
    {
        for &peer in self.sessions() {
            out.push(Message::new(peer, Message::RESEND, 0, 0));
        }
    }

    // The record with what it sends, and nothing happened besides.
    fn quiet(self, outbox: Outbox) -> ItemStep
        ensures { result ≡ record { item = self; outbox = outbox; event = Nothing } }
    {
        ItemStep {
            item: self,
            outbox,
            event: Event::Nothing,
        }
    }

    // The message is dropped.
    fn dropped(self) -> ItemStep
        requires { Packed self }
        ensures { result ≡ step_of (dropped (unpacked self)) }
    {
        self.quiet(Outbox::new())
    }

    #[tactic(auto, unfolding(crate::specs::Rules::on_request))]
    fn on_request(self, ranks: &[u8], t: u8) -> ItemStep
        requires { Packed self }
        ensures { result ≡ step_of (on_request (senior ranks.now) t (unpacked self)) }
    {
        let holder = self.holder;
        if (holder == t) | self.waits(t) {
            return self.dropped();
        }
        if holder == 0 {
            return self.granted(t);
        }
        self.joined(ranks, t)
    }

    // The free item is granted to session t.
    #[tactic(auto, using(crate::proofs::Laws::packed_eq), unfolding(crate::specs::Rules::granted))]
    fn granted(mut self, t: u8) -> ItemStep
        requires { Packed self }
        ensures { result ≡ step_of (granted t (unpacked self)) }
    {
        let outbox = Outbox::single(t, Message::GRANT, 0, 0);
        self.holder = t;
        self.quiet(outbox)
    }

    // Session t joins the end of the queue.
    #[tactic(auto, unfolding(crate::specs::Rules::queued))]
    fn joined(self, ranks: &[u8], t: u8) -> ItemStep
        requires { Joinable self }
        ensures { result ≡ step_of (queued (senior ranks.now) t (unpacked self)) }
    {
        let holder = self.holder;
        let item = self.with(t);
        let mut outbox = Outbox::new();
        if Session::senior(ranks, t, holder) {
            outbox.push(Message::new(holder, Message::PROBE, t, holder));
        }
        ItemStep {
            item,
            outbox,
            event: Event::Joined,
        }
    }

    fn on_release(self, ranks: &[u8], t: u8) -> ItemStep
        requires { Packed self }
        ensures { result ≡ step_of (on_release (senior ranks.now) (next_holder (senior ranks.now)) t (unpacked self)) }
    {
        if self.holder != t {
            return self.dropped();
        }
        if self.waiting == 0 {
            return self.vacant();
        }
        let k = self.next_holder(ranks);
        let n = self.queue[k];
        let mut rest = self.without(Some(k));
        rest.holder = n;
        rest.handed_over()
    }

    // No holder and an empty queue.
    fn vacant(mut self) -> ItemStep
        requires { Packed self × (self.waiting ≡ 0) }
        ensures { result ≡ step_of (after free [] Nothing) }
    {
        self.holder = 0;
        self.quiet(Outbox::new())
    }

    // The next holder has left the queue: it is granted the item, and the others are heard again. None of them is senior to it, so no probe goes out.
    fn handed_over(self) -> ItemStep
        requires { Packed self }
        ensures { result ≡ step_of (after (unpacked self) (plain self.holder Kind.grant ∷ resends (unpacked self).queue) Nothing) }
    {
        let mut outbox = Outbox::single(self.holder, Message::GRANT, 0, 0);
        self.resends(&mut outbox);
        self.quiet(outbox)
    }

    #[tactic(auto, unfolding(crate::specs::Rules::on_probe))]
    fn on_probe(self, ranks: &[u8], t: u8, i: u8, j: u8) -> ItemStep
        requires { Packed self }
        ensures { result ≡ step_of (on_probe (senior ranks.now) t i j (unpacked self)) }
    {
        let holder = self.holder;
        if !self.waits(t) | (holder == 0) | Session::senior(ranks, holder, i) {
            return self.dropped();
        }
        if holder == i {
            let outbox = Outbox::single(j, Message::ABORT, j, i);
            return ItemStep {
                item: self,
                outbox,
                event: Event::Declared(j, i),
            };
        }
        let outbox = Outbox::single(holder, Message::PROBE, i, j);
        self.quiet(outbox)
    }

    #[tactic(auto, unfolding(crate::specs::Rules::on_clean))]
    fn on_clean(self, ranks: &[u8], t: u8, a: u8, b: u8) -> ItemStep
        requires { Packed self }
        ensures { result ≡ step_of (on_clean (senior ranks.now) t a b (unpacked self)) }
    {
        let holder = self.holder;
        if holder == 0 {
            return self.dropped();
        }
        let mut outbox = Outbox::single(holder, Message::CLEAN, a, b);
        let others = self.without(self.place(t));
        self.probes(ranks, &mut outbox);
        others.resends(&mut outbox);
        self.quiet(outbox)
    }

    #[tactic(auto, unfolding(crate::specs::Rules::on_rebroadcast))]
    fn on_rebroadcast(self, ranks: &[u8]) -> ItemStep
        requires { Packed self }
        ensures { result ≡ step_of (on_rebroadcast (senior ranks.now) (unpacked self)) }
    {
        if self.holder == 0 {
            return self.dropped();
        }
        let mut outbox = Outbox::new();
        self.probes(ranks, &mut outbox);
        self.resends(&mut outbox);
        self.quiet(outbox)
    }

    fn on_withdraw(self, t: u8) -> ItemStep
        requires { Packed self }
        ensures { result ≡ step_of (on_withdraw t (unpacked self)) }
    {
        let outbox = Outbox::single(t, Message::WITHDRAWN, 0, 0);
        let item = self.without(self.place(t));
        item.quiet(outbox)
    }

    // What an item does on a message, by its kind. Any other kind is dropped.
    // Kept by hand: 01 names the match on the kind.
    #[tactic(auto, unfolding(crate::specs::Rules::received))]
    pub fn receive(self, ranks: &[u8], m: Message) -> ItemStep
        requires { Packed self }
        ensures { result ≡ step_of (received (senior ranks.now) (next_holder (senior ranks.now)) (unpacked self) m) }
    {
        let kind = m.kind;
        match kind {
            Message::REQUEST => self.on_request(ranks, m.peer),
            Message::RELEASE => self.on_release(ranks, m.peer),
            Message::PROBE => self.on_probe(ranks, m.peer, m.a, m.b),
            Message::CLEAN => self.on_clean(ranks, m.peer, m.a, m.b),
            Message::REBROADCAST => self.on_rebroadcast(ranks),
            Message::WITHDRAW => self.on_withdraw(m.peer),
            _ => self.dropped(),
        }
    }
}
