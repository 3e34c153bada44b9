// The session record: its stages, who is senior, what it does on a call and on each message.
#![tactic(auto)]

ghost use Rattle.std.specs.Prelude.{◌≡◌, cond, List, [], ◌∷◌, ◌++◌, ◌+◌, ◌≤◌, ◌<◌, length};
ghost use Rattle.message.specs.declared.Message.{Message};
ghost use Rattle.message.specs.Kind;
ghost use Rattle.message.specs.Limits.{IsItem};
ghost use Rattle.message.specs.Outbox.{plain};
ghost use Rattle.session.specs.Seniority.{rank, senior};
ghost use Rattle.session.specs.MostSenior.{most_senior};
ghost use Rattle.session.specs.Record.{size, session_at, put_session};
ghost use Rattle.session.specs.Rules.{step_of, dropped, stored_probes, to_held, requested, released, granted, resent, aborted, cleaned, cleaned_waiting, cleaned_victim, rolled_back, junior, Storable, kept_probe, received, Deliverable, probed};

use message::{MAX_SESSIONS, Message, Outbox};

// A session record by value. `held` is a mask: bit k - 1 is item k. Element i - 1 of `juniors` is the junior of the probe stored for
// initiator i, or 0 for none.
// `awaited` and the juniors are kept as numbers: 0 is none, as in the record's bytes.
#[derive(Clone, Copy)]
pub struct Session {
    pub stage: u8,
    pub awaited: u8,
    pub held: u64,
    pub juniors: [u8; MAX_SESSIONS],
}

// The record that follows, with what it sends.
// Kept beside item::ItemStep, which has an event: one generic type for both would be these two fields and an Option that no session fills.
#[derive(Clone, Copy)]
pub struct SessionStep {
    pub session: Session,
    pub outbox: Outbox,
}

impl Session {
    // Kept as numbers: 01 names associated constants for the stages, and a stage is a byte of the record.
    pub const GROWING: u8 = 1;

    pub const WAITING: u8 = 2;

    pub const SHRINKING: u8 = 3;

    // A victim whose clean is on its way.
    pub const CLEANING: u8 = 4;

    // A victim that withdraws from the queue in which it waits.
    pub const WITHDRAWING: u8 = 5;

    pub const ROLLED_BACK: u8 = 6;

    // The places of the fields in the record's bytes, and how many these are.
    pub const AWAITED_PLACE: usize = 1;

    pub const HELD_PLACE: usize = 2;

    pub const JUNIORS_PLACE: usize = 10;

    pub const SIZE: usize = Session::JUNIORS_PLACE + MAX_SESSIONS;

    // The rank of session t; a number that is no session's is its own rank.
    #[tactic(auto, unfolding(crate::specs::Seniority::rank))]
    fn rank(ranks: &[u8], t: u8) -> u8
        ensures { result ≡ rank ranks.now t }
    {
        let k = usize::from(t);
        if 1 <= k && k <= ranks.len() {
            ranks[k - 1]
        } else {
            t
        }
    }

    // Whether session a is senior to session b.
    #[tactic(auto, unfolding(crate::specs::Seniority::senior))]
    pub fn senior(ranks: &[u8], a: u8, b: u8) -> bool
        ensures { result ≡ senior ranks.now a b }
    {
        Session::rank(ranks, a) < Session::rank(ranks, b)
    }

    // The place of the most senior session of a list, found in one pass.
    pub fn most_senior(ranks: &[u8], list: &[u8]) -> usize
        requires { 0 < length list.now }
        ensures { (result ≡ most_senior (senior ranks.now) list.now) × (result < length list.now) }
    {
        let mut place = 0;
        let mut best = Session::rank(ranks, list[0]);
        for (i, &t) in list.iter().enumerate() {
            let rank = Session::rank(ranks, t);
            if rank < best {
                place = i;
                best = rank;
            }
        }
        place
    }

    // The more junior of two sessions.
    #[tactic(auto, unfolding(crate::specs::Rules::junior))]
    fn junior(ranks: &[u8], j: u8, t: u8) -> u8
        ensures { result ≡ junior (senior ranks.now) j t }
    {
        if Session::senior(ranks, j, t) { t } else { j }
    }

    // The record whose bytes stand at `at`.
    pub fn load(t: &[u8], at: usize) -> Session
        requires { at + size ≤ length t.now }
        ensures { result ≡ session_at t.now at }
    {
        Session {
            stage: t[at],
            awaited: t[at + Session::AWAITED_PLACE],
            held: buffer::get64(t, at + Session::HELD_PLACE),
            juniors: buffer::get_row(t, at + Session::JUNIORS_PLACE),
        }
    }

    // Writes the record's bytes at `at`.
    pub fn store(self, t: &mut [u8], at: usize)
        requires { at + size ≤ length t.old }
        ensures { t.new ≡ put_session t.old at self }
    {
        t[at] = self.stage;
        t[at + Session::AWAITED_PLACE] = self.awaited;
        buffer::put64(t, at + Session::HELD_PLACE, self.held);
        buffer::put_row(t, at + Session::JUNIORS_PLACE, self.juniors);
    }

    // Behind `out`, all stored probes by rising initiator, to item x.
    fn stored_probes(self, x: u8, out: &mut Outbox)
        requires { length out.old ≤ 1 }
        ensures { out.new ≡ out.old ++ stored_probes self x }
    {
        for (i, &j) in self.juniors.iter().enumerate() {
            if j != 0 {
                // By `as`, here and below, in range as proved: std has no From for it.
                out.push(Message::new(x, Message::PROBE, (i + 1) as u8, j));
            }
        }
    }

    // A message of one kind to each held item but `but`, by rising item number.
    // `but` is kept as a number: 0 is no item, so that each of them gets one.
    fn to_held(kind: u8, but: u8, held: u64) -> Outbox
        ensures { result ≡ to_held kind but held }
    {
        let mut out = Outbox::new();
        for y in bitset::Members(held) {
            if y != but {
                out.push(Message::new(y, kind, 0, 0));
            }
        }
        out
    }

    // The call to request item x.
    #[tactic(auto, unfolding(crate::specs::Rules::requested))]
    pub fn request(mut self, x: u8) -> SessionStep
        ensures { result ≡ step_of (requested x self) }
    {
        let mut outbox = Outbox::single(x, Message::REQUEST, 0, 0);
        self.stored_probes(x, &mut outbox);
        self.stage = Session::WAITING;
        self.awaited = x;
        SessionStep {
            session: self,
            outbox,
        }
    }

    // The call to release item x.
    #[tactic(auto, unfolding(crate::specs::Rules::released))]
    pub fn release(mut self, x: u8) -> SessionStep
        requires { (1 ≤ x) × (x ≤ 64) }
        ensures { result ≡ step_of (released x self) }
    {
        let outbox = Outbox::single(x, Message::RELEASE, 0, 0);
        self.stage = Session::SHRINKING;
        self.held = bitset::remove(self.held, x);
        self.juniors = [0u8; MAX_SESSIONS];
        SessionStep {
            session: self,
            outbox,
        }
    }

    // The message is dropped.
    fn dropped(self) -> SessionStep
        ensures { result ≡ step_of (dropped self) }
    {
        SessionStep {
            session: self,
            outbox: Outbox::new(),
        }
    }

    // Grant, stage 2, from the awaited item.
    #[tactic(auto, unfolding(crate::specs::Rules::granted))]
    fn granted(mut self, x: u8) -> SessionStep
        requires { IsItem x }
        ensures { result ≡ step_of (granted x self) }
    {
        if x == self.awaited {
            self.stage = Session::GROWING;
            self.awaited = 0;
            self.held = bitset::insert(self.held, x);
            return SessionStep {
                session: self,
                outbox: Outbox::new(),
            };
        }
        self.dropped()
    }

    // Resend, stage 2, from the awaited item.
    #[tactic(auto, unfolding(crate::specs::Rules::resent))]
    fn resent(self, x: u8) -> SessionStep
        ensures { result ≡ step_of (resent x self) }
    {
        if x == self.awaited {
            let mut outbox = Outbox::new();
            self.stored_probes(self.awaited, &mut outbox);
            return SessionStep {
                session: self,
                outbox,
            };
        }
        self.dropped()
    }

    // Abort, stage 2.
    #[tactic(auto, unfolding(crate::specs::Rules::aborted))]
    fn aborted(mut self, a: u8, b: u8) -> SessionStep
        ensures { result ≡ step_of (aborted a b self) }
    {
        let outbox = Outbox::single(self.awaited, Message::CLEAN, a, b);
        self.stage = Session::CLEANING;
        self.juniors = [0u8; MAX_SESSIONS];
        SessionStep {
            session: self,
            outbox,
        }
    }

    // Clean, stage 1.
    #[tactic(auto, unfolding(crate::specs::Rules::cleaned))]
    fn cleaned(mut self, x: u8) -> SessionStep
        ensures { result ≡ step_of (cleaned x self) }
    {
        let outbox = Session::to_held(Message::REBROADCAST, x, self.held);
        self.juniors = [0u8; MAX_SESSIONS];
        SessionStep {
            session: self,
            outbox,
        }
    }

    // Clean, stage 2.
    #[tactic(auto, using(crate::proofs::Laws::to_held_length), unfolding(crate::specs::Rules::cleaned_waiting))]
    fn cleaned_waiting(mut self, x: u8, a: u8, b: u8) -> SessionStep
        ensures { result ≡ step_of (cleaned_waiting x a b self) }
    {
        let mut outbox = Session::to_held(Message::REBROADCAST, x, self.held);
        outbox.push(Message::new(self.awaited, Message::CLEAN, a, b));
        self.juniors = [0u8; MAX_SESSIONS];
        SessionStep {
            session: self,
            outbox,
        }
    }

    // What a victim sends on its way out: a withdraw to the awaited item and, once that is answered, a release to each held item.
    // Kept with a flag, though each caller passes a constant: the edit `release_before_withdrawn` exchanges the two.
    fn leaving(self, answered: bool) -> Outbox
        ensures { result ≡ cond answered (to_held Kind.release 0 self.held) (plain self.awaited Kind.withdraw ∷ []) }
    {
        if answered {
            return Session::to_held(Message::RELEASE, 0, self.held);
        }
        Outbox::single(self.awaited, Message::WITHDRAW, 0, 0)
    }

    // Clean, stage 4: session t, if it is the victim, withdraws.
    #[tactic(auto, unfolding(crate::specs::Rules::cleaned_victim))]
    fn cleaned_victim(mut self, t: u8, a: u8) -> SessionStep
        ensures { result ≡ step_of (cleaned_victim t a self) }
    {
        if a == t {
            let outbox = self.leaving(false);
            self.stage = Session::WITHDRAWING;
            return SessionStep {
                session: self,
                outbox,
            };
        }
        self.dropped()
    }

    // Withdrawn, stage 5.
    #[tactic(auto, unfolding(crate::specs::Rules::rolled_back))]
    fn rolled_back(mut self) -> SessionStep
        ensures { result ≡ step_of (rolled_back self) }
    {
        let outbox = self.leaving(true);
        self.stage = Session::ROLLED_BACK;
        self.awaited = 0;
        self.held = 0;
        SessionStep {
            session: self,
            outbox,
        }
    }

    // The junior j stored for initiator i, if it is news; in stage 2 the probe goes to the awaited item.
    #[tactic(auto, unfolding(crate::specs::Rules::kept_probe))]
    fn kept_probe(mut self, ranks: &[u8], i: u8, j: u8) -> SessionStep
        requires { Storable i self }
        ensures { result ≡ step_of (kept_probe (senior ranks.now) i j self) }
    {
        let at = usize::from(i) - 1;
        let stored = self.juniors[at];
        if (stored == 0) | Session::senior(ranks, stored, j) {
            self.juniors[at] = j;
            let outbox = if self.stage == Session::GROWING {
                Outbox::new()
            } else {
                Outbox::single(self.awaited, Message::PROBE, i, j)
            };
            return SessionStep {
                session: self,
                outbox,
            };
        }
        self.dropped()
    }

    // Probe (i, j), stages 1, 2.
    #[tactic(auto, unfolding(crate::specs::Rules::probed))]
    fn probed(self, ranks: &[u8], t: u8, i: u8, j: u8) -> SessionStep
        requires { Storable i self }
        ensures { result ≡ step_of (probed (senior ranks.now) t i j self) }
    {
        self.kept_probe(ranks, i, Session::junior(ranks, j, t))
    }

    // What session t does on a message, by the kind and then by its stage. Any pair not named is dropped.
    // Kept by hand: 01 names the match on the kind, then on the stage.
    #[tactic(auto, unfolding(crate::specs::Rules::received))]
    pub fn receive(self, ranks: &[u8], t: u8, m: Message) -> SessionStep
        requires { Deliverable m }
        ensures { result ≡ step_of (received (senior ranks.now) t self m) }
    {
        let kind = m.kind;
        let stage = self.stage;
        match kind {
            Message::GRANT => match stage {
                Session::WAITING => self.granted(m.peer),
                _ => self.dropped(),
            },
            Message::PROBE => match stage {
                Session::GROWING | Session::WAITING => self.probed(ranks, t, m.a, m.b),
                _ => self.dropped(),
            },
            Message::RESEND => match stage {
                Session::WAITING => self.resent(m.peer),
                _ => self.dropped(),
            },
            Message::ABORT => match stage {
                Session::WAITING => self.aborted(m.a, m.b),
                _ => self.dropped(),
            },
            Message::CLEAN => match stage {
                Session::GROWING => self.cleaned(m.peer),
                Session::WAITING => self.cleaned_waiting(m.peer, m.a, m.b),
                Session::CLEANING => self.cleaned_victim(t, m.a),
                _ => self.dropped(),
            },
            Message::WITHDRAWN => match stage {
                Session::WITHDRAWING => self.rolled_back(),
                _ => self.dropped(),
            },
            _ => self.dropped(),
        }
    }
}
