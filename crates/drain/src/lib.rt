// One delivery of a drain, on buffers that were judged. The entries that the drain has delivered, spent ones, stand in a gap of the mailbox until they go out all at once.
#![tactic(auto)]

ghost use Rattle.std.specs.Prelude.{◌≡◌, true, ◌≤◌, length};
ghost use Rattle.message.specs.Outbox.{room};
ghost use Rattle.mailbox.specs.Entry.{sent};
ghost use Rattle.mailbox.specs.Layout.{entry_at};
ghost use Rattle.table.specs.Layout.{session, senior};
ghost use Rattle.waits.specs.OnTable.{locks};
ghost use Rattle.step.specs.Step.{item_receives, session_receives, session_plan, item_plan};
ghost use Rattle.step.specs.Parts.{concluded};
ghost use Rattle.drain.specs.Oldest.{acted_at};
ghost use Rattle.drain.specs.Parts.{in_use, closed_up, longer, GapIn, Due, Placed, fits, Sent, Delivers};

use message::Message;
use refusal::Refusal;

// That a gap lies in its mailbox (GapIn) is a clause and no invariant of the type: the mailbox is lent to each function, and changes.

// The places from `from` on and before `to`, of spent entries. Those before it are kept, those from `to` on are pending.
#[derive(Clone, Copy)]
pub struct Gap {
    pub from: usize,
    pub to: usize,
}

// Whether n entries more have room once the gap is closed.
fn has_room(mail: &[u8], gap: Gap, n: usize) -> bool
    requires { GapIn gap mail.now × (n ≤ room) }
    ensures { result ≡ fits gap n mail.now }
{
    mailbox::count(mail) - (gap.to - gap.from) + n <= mailbox::capacity(mail)
}

// Makes places for n entries more: the gap is closed where the free places are too few. The gap after.
fn make_places(mail: &mut [u8], gap: Gap, n: usize) -> Gap
    requires { GapIn gap mail.old × (n ≤ room) × (fits gap n mail.old ≡ true) }
    ensures { Placed gap n result mail.old mail.new }
{
    if mailbox::count(mail) + n <= mailbox::capacity(mail) {
        return gap;
    }
    mailbox::cut(mail, gap.from, gap.to);
    Gap {
        from: gap.from,
        to: gap.from,
    }
}

// Judges whether what a session (direction 1) or an item (direction 2) sends in the delivery of the entry behind the gap has room.
// If it has and the delivery is allowed, makes places for it and adds it: the gap after.
fn send(
    mail: &mut [u8],
    gap: Gap,
    allowed: bool,
    direction: u8,
    party: u8,
    out: &[Message],
) -> Result<Option<Gap>, Refusal>
    requires { GapIn (longer gap) mail.old × (length out.now ≤ room) }
    ensures { Sent gap allowed (sent direction party) out.now result mail.old mail.new }
{
    let after = Gap {
        from: gap.from,
        to: gap.to + 1,
    };
    if !has_room(mail, after, out.len()) {
        return Err(Refusal::MailFull);
    }
    if !allowed {
        return Ok(None);
    }
    let made = make_places(mail, after, out.len());
    mailbox::post(mail, direction, party, out);
    Ok(Some(made))
}

// Delivers the entry behind the gap to session t. What it shares with a delivery to an item is `send`; record and plan differ.
fn deliver_to_session(
    t: u8,
    gap: Gap,
    allowed: bool,
    table: &mut [u8],
    mail: &mut [u8],
) -> Result<Option<Gap>, Refusal>
    requires { Due gap table.old mail.old × (t ≡ (entry_at mail.old gap.to).session) }
    ensures { Delivers gap allowed table.old mail.old
        (concluded t table.old (closed_up gap mail.old) (session_plan t table.old (in_use (longer gap) mail.old) (session_receives (senior table.old) t (session table.old t) (entry_at mail.old gap.to))))
        result table.new mail.new }
{
    let r = step::session_receives(t, gap.to, table, mail);
    let Some(after) = send(mail, gap, allowed, mailbox::TO_ITEM, t, r.outbox.as_slice())? else {
        return Ok(None);
    };
    table::put_session(table, t, r.session);
    Ok(Some(after))
}

// Delivers the entry behind the gap to item x.
fn deliver_to_item(
    x: u8,
    gap: Gap,
    allowed: bool,
    table: &mut [u8],
    mail: &mut [u8],
) -> Result<Option<Gap>, Refusal>
    requires { Due gap table.old mail.old × (x ≡ (entry_at mail.old gap.to).item) }
    ensures { Delivers gap allowed table.old mail.old
        (concluded (entry_at mail.old gap.to).session table.old (closed_up gap mail.old) (item_plan x table.old (in_use (longer gap) mail.old) (item_receives (senior table.old) (locks table.old x) (entry_at mail.old gap.to))))
        result table.new mail.new }
{
    let r = step::item_receives(x, gap.to, table, mail);
    let Some(after) = send(
        mail,
        gap,
        allowed,
        mailbox::TO_SESSION,
        x,
        r.outbox.as_slice(),
    )?
    else {
        return Ok(None);
    };
    table::put_item(table, x, r.item);
    Ok(Some(after))
}

// Delivers the entry behind the gap, the earliest of its route: the gap after. Where it is not allowed, only what it would be refused with is judged: a function for that alone would say the rules twice.
pub fn deliver(
    gap: Gap,
    allowed: bool,
    table: &mut [u8],
    mail: &mut [u8],
) -> Result<Option<Gap>, Refusal>
    requires { Due gap table.old mail.old }
    ensures { Delivers gap allowed table.old mail.old
        (acted_at gap.from table.old (closed_up gap mail.old))
        result table.new mail.new }
{
    let route = mailbox::route_of(mail, gap.to);
    if route.direction == mailbox::TO_ITEM {
        return deliver_to_item(route.item, gap, allowed, table, mail);
    }
    deliver_to_session(route.session, gap, allowed, table, mail)
}

// Takes out the spent entries.
pub fn close_gap(mail: &mut [u8], gap: Gap)
    requires { GapIn gap mail.old }
    ensures { mail.new ≡ closed_up gap mail.old }
{
    if gap.from == gap.to {
        return;
    }
    mailbox::cut(mail, gap.from, gap.to);
}
