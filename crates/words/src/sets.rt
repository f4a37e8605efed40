// Sets of the objects below 64, a word each: bit k for object k.

ghost use Rattle.std.specs.Prelude.{◌≡◌, ◌≤◌, ◌<◌, ◌^◌, length};
ghost use Rattle.std.specs.Iterator.{YieldsFirst, item_count};
ghost use Rattle.model.specs.Numbers.{most_objects};
ghost use Rattle.model.specs.Sets as Sets;
ghost use Rattle.words.specs.FullSets.{full_of};

use crate::sizes::MOST_OBJECTS;

// How many members s has.
pub fn count(s: u64) -> u64
    ensures { (result ≡ length (Sets.members s)) × (result ≤ most_objects) }
{
    u64::count_ones(s) as u64
}

// Whether object k is a member of s.
pub fn is_member(k: u64, s: u64) -> bool
    ensures { result ≡ Sets.is_member k s }
{
    k < MOST_OBJECTS && (s >> k) % 2 == 1
}

// The set of object k alone.
pub fn single(k: u64) -> u64
    requires { k < most_objects }
    ensures { result ≡ 2 ^ k }
{
    1 << k
}

// The members of s or of t.
#[tactic(auto, unfolding(model::specs::Sets::union))]
pub fn union(s: u64, t: u64) -> u64
    ensures { result ≡ Sets.union s t }
{
    s | t
}

// The members of both s and t.
#[tactic(auto, unfolding(model::specs::Sets::intersection))]
pub fn intersection(s: u64, t: u64) -> u64
    ensures { result ≡ Sets.intersection s t }
{
    s & t
}

// The members of s that are not in t.
#[tactic(auto, unfolding(model::specs::Sets::difference))]
pub fn difference(s: u64, t: u64) -> u64
    ensures { result ≡ Sets.difference s t }
{
    s - (s & t)
}

// Whether every member of s is in t.
#[tactic(auto, unfolding(model::specs::Sets::is_subset))]
pub fn is_subset(s: u64, t: u64) -> bool
    ensures { result ≡ Sets.is_subset s t }
{
    s & t == s
}

// The members of a set that are still to come, the least first.
#[derive(Drop)]
pub struct LeastFirst {
    left: u64,
}

impl Iterator for LeastFirst {
    type Item = u64;

    ghost next_gives = { YieldsFirst (λ i. Sets.members i.left) };

    ghost remaining = { item_count (λ i. Sets.members i.left) };

    // The least member, which is taken off.
    fn next(&mut self) -> Option<u64> {
        if self.left == 0 {
            return None;
        }
        let k = u64::trailing_zeros(self.left) as u64;
        self.left = self.left & (self.left - 1);
        Some(k)
    }
}

// The members of s, one after the other.
pub fn members(s: u64) -> LeastFirst
    ensures { result.left ≡ s }
{
    LeastFirst { left: s }
}

// The full sets: entry n is the set of the first n objects.
const FULL: [u64; 65] = [
    0,
    1,
    3,
    7,
    15,
    31,
    63,
    127,
    255,
    511,
    1023,
    2047,
    4095,
    8191,
    16383,
    32767,
    65535,
    131071,
    262143,
    524287,
    1048575,
    2097151,
    4194303,
    8388607,
    16777215,
    33554431,
    67108863,
    134217727,
    268435455,
    536870911,
    1073741823,
    2147483647,
    4294967295,
    8589934591,
    17179869183,
    34359738367,
    68719476735,
    137438953471,
    274877906943,
    549755813887,
    1099511627775,
    2199023255551,
    4398046511103,
    8796093022207,
    17592186044415,
    35184372088831,
    70368744177663,
    140737488355327,
    281474976710655,
    562949953421311,
    1125899906842623,
    2251799813685247,
    4503599627370495,
    9007199254740991,
    18014398509481983,
    36028797018963967,
    72057594037927935,
    144115188075855871,
    288230376151711743,
    576460752303423487,
    1152921504606846975,
    2305843009213693951,
    4611686018427387903,
    9223372036854775807,
    18446744073709551615,
];

// The set of the first n objects; none where there are more than a set may have.
pub fn full(n: u64) -> u64
    ensures { result ≡ full_of n }
{
    if MOST_OBJECTS < n {
        return 0;
    }
    FULL[n as usize]
}
