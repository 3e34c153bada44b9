// The lock manager for C (01: the desk): the six calls of crate lockmgr under their names, each as its contract says. In C include/lockmgr.h.
#![tactic(auto)]

ghost use Rattle.std.specs.Prelude.{◌≡◌};
ghost use Rattle.step.specs.Step.{stepped};
ghost use Rattle.reopen.specs.Reopening.{reopened};
ghost use Rattle.cycletext.specs.OnTable.{described};
ghost use Rattle.lockmgr.specs.Calls.{config, start_result, start, step, report, reopen, cycle_text};
ghost use Rattle.lockmgr.specs.Drain.{drain_result, drain};

use lockmgr::{Answer, Cycle, Drained, Text};

// Opens a lock manager in two lent buffers; byte k of the list, from 1, is the rank of session k.
#[unsafe(no_mangle)]
pub extern "C" fn lockmgr_start(
    sessions: u64,
    items: u64,
    capacity: u64,
    ranks: &[u8],
    table: &mut [u8],
    mail: &mut [u8],
) -> u8
    ensures { start_result result table.new mail.new ≡ start (config sessions items capacity ranks.now) table.old mail.old }
{
    lockmgr::lockmgr_start(sessions, items, capacity, ranks, table, mail)
}

// One step: a request, a release or a delivery.
#[unsafe(no_mangle)]
pub extern "C" fn lockmgr_step(
    verb: u64,
    session: u64,
    item: u64,
    table: &mut [u8],
    mail: &mut [u8],
) -> Answer
    ensures { stepped result table.new mail.new ≡ step verb session item table.old mail.old }
{
    lockmgr::lockmgr_step(verb, session, item, table, mail)
}

// The length of the cycle on which a session lies, or 0.
#[unsafe(no_mangle)]
pub extern "C" fn lockmgr_report(session: u64, table: &[u8]) -> Cycle
    ensures { result ≡ report session table.now }
{
    lockmgr::lockmgr_report(session, table)
}

// Reopens a session whose work is over and that nothing names: it begins anew. The mail is read, never written.
#[unsafe(no_mangle)]
pub extern "C" fn lockmgr_reopen(session: u64, table: &mut [u8], mail: &[u8]) -> u8
    ensures { reopened result table.new ≡ reopen session table.old mail.now }
{
    lockmgr::lockmgr_reopen(session, table, mail)
}

// The text of the cycle on which a session lies, a line for each member, at the start of a lent buffer.
#[unsafe(no_mangle)]
pub extern "C" fn lockmgr_cycle_text(session: u64, table: &[u8], text: &mut [u8]) -> Text
    ensures { described result text.new ≡ cycle_text session table.now text.old }
{
    lockmgr::lockmgr_cycle_text(session, table, text)
}

// Delivers the oldest entry again and again: until no mail is left, the next delivery would be refused with 9, or so many are made.
#[unsafe(no_mangle)]
pub extern "C" fn lockmgr_drain(limit: u64, table: &mut [u8], mail: &mut [u8]) -> Drained
    ensures { drain_result result table.new mail.new ≡ drain limit table.old mail.old }
{
    lockmgr::lockmgr_drain(limit, table, mail)
}
