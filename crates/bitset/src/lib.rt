// A 64-bit mask as a set of the numbers 1 to 64.
#![tactic(auto)]

ghost use Rattle.std.specs.Prelude.{◌≡◌, ◌∷◌, ◌≤◌, ◌<◌};
ghost use Rattle.std.specs.Iterator.{YieldsFirst, item_count};
ghost use Rattle.bitset.specs.Bitset.{has, single, full, insert, remove, members};

// The lowest member of a mask, and the mask without it.
#[derive(Clone, Copy)]
pub struct Split {
    pub member: u8,
    pub rest: u64,
}

// The lowest is found by trailing zeros.
#[tactic(auto, using(crate::proofs::Laws::trailing_below))]
pub fn lowest(mask: u64) -> Split
    requires { mask ≡ 0 → ⊥ }
    ensures { (members mask ≡ result.member ∷ members result.rest) × (result.rest < mask) × (1 ≤ result.member) × (result.member ≤ 64) }
{
    let k = mask.trailing_zeros();
    Split {
        // By `as`, here and below, in range as proved: std has no From for it.
        member: (k + 1) as u8,
        rest: mask - (1u64 << k),
    }
}

// What is left of a loop over the members of a mask, from the lowest on.
#[derive(Drop)]
pub struct Members(pub u64);

impl Iterator for Members {
    type Item = u8;

    ghost next_gives = { YieldsFirst (λ s. members s.0) };

    ghost remaining = { item_count (λ s. members s.0) };

    fn next(&mut self) -> Option<u8> {
        if self.0 == 0 {
            return None;
        }
        let low = lowest(self.0);
        self.0 = low.rest;
        Some(low.member)
    }
}

// The mask of k alone, empty where k is 0.
#[tactic(auto, using(crate::proofs::Laws::shift_one), unfolding(crate::specs::Bitset::single))]
pub fn single(k: u8) -> u64
    requires { k ≤ 64 }
    ensures { result ≡ single k }
{
    if k == 0 { 0 } else { 1u64 << (k - 1) }
}

// The mask of 1 to m.
pub fn full(m: u8) -> u64
    requires { m ≤ 64 }
    ensures { result ≡ full m }
{
    if m == 64 { u64::MAX } else { (1u64 << m) - 1 }
}

// That k is 1 to 64 is a clause below: numbers come from records and messages, where they are bytes.

// Whether k is in the mask.
#[tactic(auto, unfolding(crate::specs::Bitset::has))]
pub fn contains(mask: u64, k: u8) -> bool
    requires { (1 ≤ k) × (k ≤ 64) }
    ensures { result ≡ has k mask }
{
    (mask >> (k - 1)) % 2 == 1
}

// The mask with k in it.
#[tactic(auto, using(crate::proofs::Laws::shift_one, crate::proofs::Laws::or_bit), unfolding(crate::specs::Bitset::has, crate::specs::Bitset::insert))]
pub fn insert(mask: u64, k: u8) -> u64
    requires { (1 ≤ k) × (k ≤ 64) }
    ensures { result ≡ insert k mask }
{
    mask | (1u64 << (k - 1))
}

// The mask without k.
#[tactic(auto, using(crate::proofs::Laws::shift_one, crate::proofs::Laws::present_fits), unfolding(crate::specs::Bitset::remove))]
pub fn remove(mask: u64, k: u8) -> u64
    requires { (1 ≤ k) × (k ≤ 64) }
    ensures { result ≡ remove k mask }
{
    if contains(mask, k) {
        mask - (1u64 << (k - 1))
    } else {
        mask
    }
}
