// One step on buffers that were judged: a request, a release or a delivery.
#![tactic(auto)]

ghost use Rattle.std.specs.Prelude.{◌≡◌, ◌<◌, true, not, ◌≤◌, eqb, length, get_or, IfSome};
ghost use Rattle.message.specs.Limits.{max_items};
ghost use Rattle.message.specs.Outbox.{room};
ghost use Rattle.session.specs.Rules as SessionRules;
ghost use Rattle.item.specs.Rules as ItemRules;
ghost use Rattle.mailbox.specs.Entry.{unused, sent};
ghost use Rattle.mailbox.specs.Layout.{capacity_of, count_of, entry_at, entries_of, mail_bytes, Kept};
ghost use Rattle.table.specs.Layout.{HasSession, HasItem, Formed, sessions_of, session, senior, well_formed, with_item};
ghost use Rattle.waits.specs.OnTable.{locks, cycle_length};
ghost use Rattle.refusal.specs.Refusal.{first};
ghost use Rattle.refusal.specs.Number.{outcome};
ghost use Rattle.step.specs.Verb.{verb_number, Names};
ghost use Rattle.step.specs.Told.{told};
ghost use Rattle.step.specs.Step.{refused_answer, accepted_answer, item_receives, session_receives, session_acts, stage_forbids, mask_forbids, is_delivery, step_causes, session_plan, item_plan, stepped, answered, acted};
ghost use Rattle.step.specs.Parts.{Judged, Found, Acting, place_of, without, ForItem, ForSession, fitting, room_made, Added, concluded};

use item::{Event, ItemStep};
use mailbox::Route;
use message::Message;
use refusal::Refusal;
use session::{Session, SessionStep};

// What a step does: a call of its session, or a delivery on the route between session and item.
#[derive(Clone, Copy, Debug, PartialEq, Eq)]
pub enum Verb {
    Request = 1,
    Release,
    DeliverToItem,
    DeliverToSession,
}

impl Verb {
    fn is_delivery(self) -> bool
        ensures { result ≡ is_delivery (verb_number self) }
    {
        matches!(self, Verb::DeliverToItem | Verb::DeliverToSession)
    }
}

impl TryFrom<u64> for Verb {
    type Error = Refusal;

    ghost try_from_gives = { Names };

    fn try_from(number: u64) -> Result<Verb, Refusal> {
        match number {
            1 => Ok(Verb::Request),
            2 => Ok(Verb::Release),
            3 => Ok(Verb::DeliverToItem),
            4 => Ok(Verb::DeliverToSession),
            _ => Err(Refusal::BadVerb),
        }
    }
}

// The answer of a step, as C reads it. A refused step answers its number and zeros.
#[repr(C)]
#[derive(Clone, Copy)]
pub struct Answer {
    pub refusal: u8,
    pub sent: u8,
    pub closed: u8,
    pub victim: u8,
    pub initiator: u8,
}

impl Answer {
    // Takes any number, as it always did: a Refusal would ask more.
    pub fn refused(refusal: u8) -> Answer
        ensures { result ≡ refused_answer refusal }
    {
        Answer {
            refusal,
            sent: 0,
            closed: 0,
            victim: 0,
            initiator: 0,
        }
    }

    pub fn accepted(sent: u8, closed: u8, victim: u8, initiator: u8) -> Answer
        ensures { result ≡ accepted_answer sent closed victim initiator }
    {
        Answer {
            refusal: 0,
            sent,
            closed,
            victim,
            initiator,
        }
    }
}

// verb, t and x are three arguments: act promises of each, and most parts ask for two of them.

// The place of the entry that a step delivers.
// Never inlined: with the search in it, `act` would take some 5% longer for the smallest steps.
#[inline(never)]
fn delivered(verb: Verb, t: u8, x: u8, mail: &[u8]) -> Option<usize>
    requires { Kept mail.now }
    ensures { Found (verb_number verb) t x result mail.now }
{
    let direction = match verb {
        Verb::DeliverToItem => mailbox::TO_ITEM,
        Verb::DeliverToSession => mailbox::TO_SESSION,
        Verb::Request | Verb::Release => return None,
    };
    let route = Route {
        direction,
        session: t,
        item: x,
    };
    mailbox::earliest(mail, route)
}

// Whether the stage forbids a request or a release.
fn stage_forbids(verb: Verb, stage: u8) -> bool
    ensures { result ≡ stage_forbids (verb_number verb) stage }
{
    let growing = stage == Session::GROWING;
    match verb {
        Verb::Request => !growing,
        Verb::Release => !(growing | (stage == Session::SHRINKING)),
        Verb::DeliverToItem | Verb::DeliverToSession => false,
    }
}

// Whether the mask of held items forbids a request or a release of item x.
fn mask_forbids(verb: Verb, x: u8, held: u64) -> bool
    requires { (1 ≤ x) × (x ≤ max_items) }
    ensures { result ≡ mask_forbids (verb_number verb) x held }
{
    match verb {
        Verb::Request => bitset::contains(held, x),
        Verb::Release => !bitset::contains(held, x),
        Verb::DeliverToItem | Verb::DeliverToSession => false,
    }
}

// The causes that lie in the step itself, but for room, in their order; `entry` is the place of the entry that it delivers.
fn step_refusal(
    verb: Verb,
    t: u8,
    x: u8,
    entry: Option<usize>,
    table: &[u8],
    mail: &[u8],
) -> Result<(), Refusal>
    requires { Judged t x table.now mail.now × Found (verb_number verb) t x entry mail.now }
    ensures { outcome result ≡ first (step_causes (verb_number verb) t x table.now (entries_of mail.now)) }
{
    let s = table::session(table, t);
    let staged = stage_forbids(verb, s.stage);
    let masked = mask_forbids(verb, x, s.held);
    if staged {
        return Err(Refusal::WrongStage);
    }
    if masked {
        return Err(Refusal::WrongItem);
    }
    if verb.is_delivery() && entry.is_none() {
        return Err(Refusal::NoMessage);
    }
    Ok(())
}

// Of a session and of an item, here and below: each has its own rules and definitions, as in table.

// What item x does on entry k.
pub fn item_receives(x: u8, k: usize, table: &[u8], mail: &[u8]) -> ItemStep
    requires { ForItem x k table.now mail.now }
    ensures { (result ≡ ItemRules.step_of (item_receives (senior table.now) (locks table.now x) (entry_at mail.now k))) × (length result.outbox ≤ room) }
{
    table::item(table, x).receive(table::ranks(table), mailbox::message_to_item(mail, k))
}

// What session t does on entry k.
pub fn session_receives(t: u8, k: usize, table: &[u8], mail: &[u8]) -> SessionStep
    requires { ForSession t k table.now mail.now }
    ensures { (result ≡ SessionRules.step_of (session_receives (senior table.now) t (session table.now t) (entry_at mail.now k))) × (length result.outbox ≤ room) }
{
    table::session(table, t).receive(table::ranks(table), t, mailbox::message_to_session(mail, k))
}

// What session t does in a step; `entry` is the place of the entry that it delivers.
fn session_acts(
    verb: Verb,
    t: u8,
    x: u8,
    entry: Option<usize>,
    table: &[u8],
    mail: &[u8],
) -> SessionStep
    requires { Acting (verb_number verb) t x entry table.now mail.now }
    ensures { result ≡ SessionRules.step_of (session_acts (senior table.now) (verb_number verb) t x (session table.now t) (get_or (entries_of mail.now) (place_of entry (entries_of mail.now)) unused)) }
{
    match verb {
        Verb::Request => table::session(table, t).request(x),
        Verb::Release => table::session(table, t).release(x),
        Verb::DeliverToItem | Verb::DeliverToSession => {
            session_receives(t, entry.unwrap(), table, mail)
        }
    }
}

// That an entry stands in the mail is a clause of each part: the mail is lent, and changes.

// How many entries are left without the one at this place.
fn left(mail: &[u8], entry: Option<usize>) -> usize
    requires { Kept mail.now × IfSome entry (λ k. k < count_of mail.now) }
    ensures { result ≡ length (without entry (entries_of mail.now)) }
{
    mailbox::count(mail) - usize::from(entry.is_some())
}

// Takes out the entry at this place.
fn take(mail: &mut [u8], entry: Option<usize>)
    requires { Kept mail.old × IfSome entry (λ k. k < count_of mail.old) }
    ensures { mail.new ≡ mail_bytes (capacity_of mail.old) (without entry (entries_of mail.old)) }
{
    if let Some(k) = entry {
        mailbox::remove(mail, k);
    }
}

// If n entries more have room once the entry at this place is out, takes it out.
fn make_room(mail: &mut [u8], entry: Option<usize>, n: usize) -> Result<(), Refusal>
    requires { Kept mail.old × (n ≤ room) × IfSome entry (λ k. k < count_of mail.old) }
    ensures { fitting (outcome result) mail.new ≡ room_made mail.old (without entry (entries_of mail.old)) n }
{
    if mailbox::capacity(mail) < left(mail, entry) + n {
        return Err(Refusal::MailFull);
    }
    take(mail, entry);
    Ok(())
}

// Adds what a session (direction 1) or an item (direction 2) sends once the entry at this place is out, if there is room: how many they are.
fn send(
    mail: &mut [u8],
    entry: Option<usize>,
    direction: u8,
    party: u8,
    out: &[Message],
) -> Result<u8, Refusal>
    requires { Kept mail.old × (length out.now ≤ room) × IfSome entry (λ k. k < count_of mail.old) }
    ensures { Added (sent direction party) out.now mail.old (without entry (entries_of mail.old)) result mail.new }
{
    make_room(mail, entry, out.len())?;
    mailbox::post(mail, direction, party, out);
    // By `as`, here and below, in range as proved: std has no From for it.
    Ok(out.len() as u8)
}

// Session t has stepped: the messages and the record are written, if there is room. What it shares with an item's step is `send`; record, plan and answer differ.
fn commit_session(
    t: u8,
    entry: Option<usize>,
    r: SessionStep,
    table: &mut [u8],
    mail: &mut [u8],
) -> Result<Answer, Refusal>
    requires { HasSession table.old t × Kept mail.old × (length r.outbox ≤ room) × IfSome entry (λ k. k < count_of mail.old) }
    ensures { (w : SessionRules.After) → r ≡ SessionRules.step_of w
        → stepped (told result) table.new mail.new ≡ concluded t table.old mail.old (session_plan t table.old (without entry (entries_of mail.old)) w) }
{
    let sent = send(mail, entry, mailbox::TO_ITEM, t, r.outbox.as_slice())?;
    table::put_session(table, t, r.session);
    Ok(Answer::accepted(sent, 0, 0, 0))
}

// Item x has stepped on a message of session t: the messages and the record are written, if there is room.
fn commit_item(
    t: u8,
    x: u8,
    entry: Option<usize>,
    r: ItemStep,
    table: &mut [u8],
    mail: &mut [u8],
) -> Result<Answer, Refusal>
    requires { HasSession table.old t × HasItem table.old x × (well_formed (with_item table.old x r.item) ≡ true) × Kept mail.old × (length r.outbox ≤ room) × IfSome entry (λ k. k < count_of mail.old) }
    ensures { (w : ItemRules.After) → r ≡ ItemRules.step_of w
        → stepped (told result) table.new mail.new ≡ concluded t table.old mail.old (item_plan x table.old (without entry (entries_of mail.old)) w) }
{
    let sent = send(mail, entry, mailbox::TO_SESSION, x, r.outbox.as_slice())?;
    table::put_item(table, x, r.item);
    Ok(answer_of(t, sent, r.event, table))
}

// The answer of an accepted step, by what happened at the item.
fn answer_of(t: u8, sent: u8, event: Event, table: &[u8]) -> Answer
    requires { Formed table.now × (1 ≤ t) × (t ≤ sessions_of table.now) }
    ensures { result ≡ answered t sent table.now event }
{
    match event {
        Event::Nothing => Answer::accepted(sent, 0, 0, 0),
        Event::Joined => Answer::accepted(sent, u8::from(closes(t, table)), 0, 0),
        Event::Declared(v, i) => Answer::accepted(sent, 0, v, i),
    }
}

// Whether session t lies on a cycle.
fn closes(t: u8, table: &[u8]) -> bool
    requires { Formed table.now × (1 ≤ t) × (t ≤ sessions_of table.now) }
    ensures { result ≡ not (eqb (cycle_length table.now t) 0) }
{
    waits::cycle_length(table, t) != 0
}

// One step on buffers that were judged.
pub fn act(verb: Verb, t: u8, x: u8, table: &mut [u8], mail: &mut [u8]) -> Result<Answer, Refusal>
    requires { Judged t x table.old mail.old }
    ensures { stepped (told result) table.new mail.new ≡ acted (senior table.old) (verb_number verb) t x table.old mail.old }
{
    let entry = delivered(verb, t, x, mail);
    step_refusal(verb, t, x, entry, table, mail)?;
    match verb {
        Verb::DeliverToItem => {
            let r = item_receives(x, entry.unwrap(), table, mail);
            commit_item(t, x, entry, r, table, mail)
        }
        Verb::Request | Verb::Release | Verb::DeliverToSession => {
            let r = session_acts(verb, t, x, entry, table, mail);
            commit_session(t, entry, r, table, mail)
        }
    }
}
