// The statement program: reads a list of days from standard input and prints the statement over them.
#![tactic(auto)]

use std::io;

// Kept by hand, as in `replay`: no length may be a trait's constant, so one function for both would take the two rooms and a closure with two clauses.
fn main(rt: HostRuntime) -> io::Result<()> {
    let mut input = yearly::room();
    let n = program::read_full(&mut rt.stdin(), &mut input)?;
    let mut out = [0u8; yearly::LONGEST];
    let end = yearly::write(&input[..n], &mut out);
    rt.write_all(&out[..end])
}
