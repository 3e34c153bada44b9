// A session is reopened (02: session numbers used again): whether nothing names it any more, and the record that begins anew.
#![tactic(auto)]

ghost use Rattle.std.specs.Prelude.{◌≡◌, ◌≤◌, ◌<◌};
ghost use Rattle.lists.specs.Lists.{member};
ghost use Rattle.refusal.specs.Refusal.{first};
ghost use Rattle.refusal.specs.Number.{outcome};
ghost use Rattle.message.specs.Limits.{IsSession};
ghost use Rattle.item.specs.Record.{Packed};
ghost use Rattle.mailbox.specs.Layout.{count_of, entry_at, entries_of};
ghost use Rattle.table.specs.Layout as Table;
ghost use Rattle.step.specs.Step.{Formed};
ghost use Rattle.reopen.specs.Reopening.{is_over, stored_names, item_names, entry_names, no_probe_names, no_item_names, no_entry_names, may_reopen, reopen_causes, reopened, unless_refused};
ghost use Rattle.reopen.specs.Parts.{Searchable};

use item::Item;
use message::MAX_SESSIONS;
use refusal::Refusal;
use session::Session;

// Whether the session's work is over: stage 3 with nothing held, or stage 6.
#[tactic(auto, unfolding(crate::specs::Reopening::is_over))]
fn is_over(s: Session) -> bool
    ensures { result ≡ is_over s }
{
    let released = (s.stage == Session::SHRINKING) & (s.held == 0);
    released | (s.stage == Session::ROLLED_BACK)
}

// Whether t stands in a row: no early exit, so that the loop is done by vectors.
fn row_has(row: [u8; MAX_SESSIONS], t: u8) -> bool
    ensures { result ≡ member t row }
{
    row.iter().fold(false, |found, k| found | (*k == t))
}

// Whether a probe that the record stores names session t.
#[tactic(auto, unfolding(crate::specs::Reopening::stored_names))]
fn stored_names(t: u8, s: Session) -> bool
    requires { IsSession t }
    ensures { result ≡ stored_names t s }
{
    let juniors = s.juniors;
    let as_initiator = juniors[usize::from(t) - 1] != 0;
    as_initiator | row_has(juniors, t)
}

// Whether an item names session t; behind its queue stand zeros.
fn item_names(t: u8, i: Item) -> bool
    requires { (1 ≤ t) × Packed i }
    ensures { result ≡ item_names t i }
{
    let queue = i.queue;
    (i.holder == t) | row_has(queue, t)
}

// Whether entry k, as its item sees it, names session t: where its kind carries no sessions there are zeros.
fn entry_names(t: u8, mail: &[u8], k: usize) -> bool
    requires { Searchable t mail.now × (k < count_of mail.now) }
    ensures { result ≡ entry_names t (entry_at mail.now k) }
{
    let m = mailbox::message_to_item(mail, k);
    (m.peer == t) | (m.a == t) | (m.b == t)
}

// Three searches of one line each: a function for all three would be `all` again.

// Whether no stored probe names session t.
fn no_probe_names(t: u8, table: &[u8]) -> bool
    requires { IsSession t × Table.Formed table.now }
    ensures { result ≡ no_probe_names t table.now }
{
    (0..table::sessions(table)).all(|k| !stored_names(t, table::session(table, k + 1)))
}

// Whether no item names session t.
fn no_item_names(t: u8, table: &[u8]) -> bool
    requires { (1 ≤ t) × Table.Formed table.now }
    ensures { result ≡ no_item_names t table.now }
{
    (0..table::items(table)).all(|x| !item_names(t, table::item(table, x + 1)))
}

// Whether no entry names session t.
fn no_entry_names(t: u8, mail: &[u8]) -> bool
    requires { Searchable t mail.now }
    ensures { result ≡ no_entry_names t (entries_of mail.now) }
{
    let n = mailbox::count(mail);
    (0..n).all(|k| !entry_names(t, mail, k))
}

// Whether session t may be reopened.
#[tactic(auto, using(table::proofs::Laws::places), unfolding(crate::specs::Reopening::may_reopen))]
fn may_reopen(t: u8, table: &[u8], mail: &[u8]) -> bool
    requires { Formed table.now mail.now × Table.HasSession table.now t }
    ensures { result ≡ may_reopen t table.now mail.now }
{
    is_over(table::session(table, t))
        && no_probe_names(t, table)
        && no_item_names(t, table)
        && no_entry_names(t, mail)
}

// Reopens session t, on buffers that were judged.
#[tactic(auto, unfolding(refusal::specs::Refusal::first))]
pub fn reopen(t: u8, table: &mut [u8], mail: &[u8]) -> Result<(), Refusal>
    requires { Formed table.old mail.now × Table.HasSession table.old t }
    ensures { reopened (outcome result) table.new ≡ unless_refused (first (reopen_causes t table.old mail.now)) t table.old }
{
    if !may_reopen(t, table, mail) {
        return Err(Refusal::InUse);
    }
    let mut s = table::session(table, t);
    s.stage = Session::GROWING;
    s.awaited = 0;
    s.held = 0;
    s.juniors = [0u8; MAX_SESSIONS];
    table::put_session(table, t, s);
    Ok(())
}
