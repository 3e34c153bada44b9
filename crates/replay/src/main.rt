// The replay program: reads a list of steps from standard input and prints what each answers.
#![tactic(auto)]

use std::io;

// Kept by hand, as in `statement`: no length may be a trait's constant, so one function for both would take the two rooms and a closure with two clauses.
fn main(rt: HostRuntime) -> io::Result<()> {
    let mut input = transcript::room();
    let n = program::read_full(&mut rt.stdin(), &mut input)?;
    let mut out = [0u8; transcript::LONGEST];
    let end = transcript::write(&input[..n], &mut out);
    rt.write_all(&out[..end])
}
