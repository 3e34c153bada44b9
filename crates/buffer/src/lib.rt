// Little-endian numbers and runs of bytes in a buffer.
#![tactic(auto)]

ghost use Rattle.std.specs.Prelude.{◌≡◌, ◌+◌, ◌≤◌, ◌<◌, eqb, length, get_or, replicate};
ghost use Rattle.lists.specs.Lists.{all_of};
ghost use Rattle.buffer.specs.Bytes.{slice, from_bytes, to_bytes, splice};

// Two and eight bytes stand side by side: each width has from_le_bytes by name, and no trait of std has it.

// The number of two bytes at `at`.
pub fn get16(t: &[u8], at: usize) -> u64
    requires { at + 2 ≤ length t.now }
    ensures { result ≡ from_bytes (slice t.now at 2) }
{
    u64::from(u16::from_le_bytes(get_row(t, at)))
}

// Writes the two lowest bytes of v at `at`.
pub fn put16(t: &mut [u8], at: usize, v: u64)
    requires { at + 2 ≤ length t.old }
    ensures { t.new ≡ splice t.old at (to_bytes 2 v) }
{
    // By `as`, here and below, in range as proved: std has no From for it.
    put_row(t, at, ((v % 65536) as u16).to_le_bytes());
}

// The number of eight bytes at `at`.
pub fn get64(t: &[u8], at: usize) -> u64
    requires { at + 8 ≤ length t.now }
    ensures { result ≡ from_bytes (slice t.now at 8) }
{
    u64::from_le_bytes(get_row(t, at))
}

// Writes the eight bytes of v at `at`.
pub fn put64(t: &mut [u8], at: usize, v: u64)
    requires { at + 8 ≤ length t.old }
    ensures { t.new ≡ splice t.old at (to_bytes 8 v) }
{
    put_row(t, at, v.to_le_bytes());
}

// The N bytes at `at`.
pub fn get_row<const N: usize>(t: &[u8], at: usize) -> [u8; N]
    requires { at + N ≤ length t.now }
    ensures { result ≡ slice t.now at N }
{
    let mut row = [0u8; N];
    row.copy_from_slice(&t[at..at + N]);
    row
}

// Writes N bytes at `at`.
#[tactic(auto, using(crate::proofs::Laws::part_written))]
pub fn put_row<const N: usize>(t: &mut [u8], at: usize, row: [u8; N])
    requires { at + N ≤ length t.old }
    ensures { t.new ≡ splice t.old at row.entry }
{
    t[at..at + N].copy_from_slice(&row);
}

// Moves n bytes down by `by` to `at`.
#[tactic(auto, using(crate::proofs::Laws::move_all))]
pub fn move_down(t: &mut [u8], at: usize, by: usize, n: usize)
    requires { at + by + n ≤ length t.old }
    ensures { t.new ≡ splice t.old at (slice t.old (at + by) n) }
{
    t.copy_within(at + by..at + by + n, at);
}

// Writes n zeros at `at`.
#[tactic(auto, using(crate::proofs::Laws::part_written))]
pub fn put_zeros(t: &mut [u8], at: usize, n: usize)
    requires { at + n ≤ length t.old }
    ensures { t.new ≡ splice t.old at (replicate n 0) }
{
    t[at..at + n].fill(0);
}

// Writes bytes as they are, and answers the place behind them.
pub fn put_bytes(t: &mut [u8], at: usize, bytes: &[u8]) -> usize
    requires { at + length bytes.now ≤ length t.old }
    ensures { (t.new ≡ splice t.old at bytes.now) × (result ≡ at + length bytes.now) }
{
    // Kept as a loop: a text known where it is written becomes a few stores. With copy_from_slice the text of a cycle took 4 to 6% longer.
    for (i, &b) in bytes.iter().enumerate() {
        t[at + i] = b;
    }
    at + bytes.len()
}

// Whether n bytes from `at` on are zero; with no early exit, so that it is done by vectors.
pub fn is_zero(t: &[u8], at: usize, n: usize) -> bool
    requires { at + n ≤ length t.now }
    ensures { result ≡ all_of (λ b. eqb b 0) (slice t.now at n) }
{
    t[at..at + n].iter().fold(0, |acc, b| acc | *b) == 0
}

// Writes zeros.
pub fn clear(t: &mut [u8])
    ensures { t.new ≡ replicate (length t.old) 0 }
{
    t.fill(0);
}
