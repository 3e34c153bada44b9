// Numbers as text in a lent buffer: what writes at a place answers the place behind it.
#![tactic(auto)]

ghost use Rattle.std.specs.Prelude.{◌≡◌, ◌+◌, ◌≤◌, length};
ghost use Rattle.buffer.specs.Bytes.{splice};
ghost use Rattle.text.specs.Text.{decimal, spaced, rest, line};

// Writes v in decimal.
// Kept by hand: `write!` may answer a fmt::Error whatever the room, so that no contract could promise the digits. What writes is lent the buffer and a place:
// a cursor over a lent buffer would promise the same and stand beside these functions.
#[tactic(auto, using(crate::proofs::Laws::length_digit, crate::proofs::Laws::length_decimal_more))]
pub fn put_decimal(out: &mut [u8], at: usize, v: u64) -> usize
    requires { at + length (decimal v) ≤ length out.old }
    ensures { (out.new ≡ splice out.old at (decimal v)) × (result ≡ at + length (decimal v)) }
{
    if v < 10 {
        // By `as`, here and below, in range as proved: std has no From for it.
        out[at] = b'0' + v as u8;
        return at + 1;
    }
    let next = put_decimal(out, at, v / 10);
    out[next] = b'0' + (v % 10) as u8;
    next + 1
}

// How many digits v has, counted as they are written: by the logarithm a text in a short buffer took 3 to 5% longer.
#[tactic(auto, using(crate::proofs::Laws::length_digit, crate::proofs::Laws::length_decimal_more, crate::proofs::Laws::length_most))]
pub fn decimal_length(v: u64) -> usize
    ensures { result ≡ length (decimal v) }
{
    if v >= 10 {
        decimal_length(v / 10) + 1
    } else {
        1
    }
}

// Writes a space before each number.
#[tactic(auto, using(crate::proofs::Laws::spaced_room))]
fn put_spaced(out: &mut [u8], at: usize, numbers: &[u64]) -> usize
    requires { at + length (spaced numbers.now) ≤ length out.old }
    ensures { (out.new ≡ splice out.old at (spaced numbers.now)) × (result ≡ at + length (spaced numbers.now)) }
{
    let mut next = at;
    for n in numbers {
        out[next] = b' ';
        next = put_decimal(out, next + 1, *n);
    }
    next
}

// Writes the rest of a line: a space before each number, then a line feed.
pub fn end_line(out: &mut [u8], at: usize, numbers: &[u64]) -> usize
    requires { at + length (rest numbers.now) ≤ length out.old }
    ensures { (out.new ≡ splice out.old at (rest numbers.now)) × (result ≡ at + length (rest numbers.now)) }
{
    let next = put_spaced(out, at, numbers);
    out[next] = b'\n';
    next + 1
}

// Writes a line of numbers: the first, then the others with a space before each, then a line feed.
pub fn put_line(out: &mut [u8], at: usize, first: u64, others: &[u64]) -> usize
    requires { at + length (line first others.now) ≤ length out.old }
    ensures { (out.new ≡ splice out.old at (line first others.now)) × (result ≡ at + length (line first others.now)) }
{
    let next = put_decimal(out, at, first);
    end_line(out, next, others)
}
