// The steps of a list with their tally: one record of three numbers, lent to the steps that update it.
#![tactic(auto)]

ghost use Rattle.std.specs.Prelude.{◌≡◌, true};
ghost use Rattle.table.specs.Layout as Table;
ghost use Rattle.step.specs.Step.{Formed};
ghost use Rattle.lockmgr.specs.Run.{declares};
ghost use Rattle.tally.specs.Tally.{added, Fits};
ghost use Rattle.tally.specs.Steps.{step_of, is_rolled_back, Tallied};

use session::Session;
use step::Answer;

// Cycles closed (01: rings), declarations made and sessions that reached stage 6. 01 names a record that is lent to the step and on to `add`.
#[derive(Clone, Copy)]
pub struct Tally {
    pub closed: u64,
    pub declared: u64,
    pub rolled_back: u64,
}

// Whether a step that answers this declares a deadlock.
fn declares(a: Answer) -> bool
    ensures { result ≡ declares a }
{
    a.victim != 0 && a.initiator != 0
}

// Adds a step's answer, and whether the step rolled its session back, which the answer does not say.
pub fn add(t: &mut Tally, a: Answer, rolled_back: bool)
    requires { Fits t.old }
    ensures { t.new ≡ added a rolled_back t.old }
{
    t.closed += u64::from(a.closed);
    t.declared += u64::from(declares(a));
    t.rolled_back += u64::from(rolled_back);
}

// A step: what a caller asks of the lock manager, in bytes of the input, which may name no verb.
#[derive(Clone, Copy)]
pub struct Step {
    pub verb: u8,
    pub session: u8,
    pub item: u8,
}

// Whether there is such a session and it is at stage 6.
fn is_rolled_back(table: &[u8], session: u8) -> bool
    requires { Table.sized table.now ≡ true }
    ensures { result ≡ is_rolled_back table.now session }
{
    (1..=table::sessions(table)).contains(&session)
        && table::session(table, session).stage == Session::ROLLED_BACK
}

// Does a step and adds its answer to the tally.
pub fn take_step(c: Step, t: &mut Tally, table: &mut [u8], mail: &mut [u8]) -> Answer
    requires { Formed table.old mail.old × Fits t.old }
    ensures { Tallied (step_of c) table.old mail.old t.old result t.new table.new mail.new }
{
    let before = is_rolled_back(table, c.session);
    let answer = lockmgr::lockmgr_step(
        u64::from(c.verb),
        u64::from(c.session),
        u64::from(c.item),
        table,
        mail,
    );
    let after = is_rolled_back(table, c.session);
    add(t, answer, !before & after);
    answer
}
