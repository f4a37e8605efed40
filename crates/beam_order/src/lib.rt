// The order array of a layer: places are found by halving, and slots are put in and taken out by shifts.

#![tactic(auto)]

pub mod slots;

ghost use Rattle.std.specs.Prelude.{◌≡◌, ◌+◌, ◌-◌, ◌*◌, ◌≤◌, ◌<◌, length, get_or};
ghost use Rattle.beam_order.specs.Slots.{header_words, slot_words};
ghost use Rattle.beam_order.specs.Order.{inserted, removed, up_from, earlier_at, Rising, Cutoff, Inside, FoundBelow};

use crate::slots::{HEADER_WORDS, earlier};

// Writes 0, 1, 2, .. into the array.
pub fn fill(order: &mut [u64])
    ensures { order.new ≡ up_from 0 (length order.old) }
{
    for i in 0..order.len() {
        order[i] = i as u64;
    }
}

// Puts x in at p: those from p to n move one place up.
pub fn insert_at(order: &mut [u64], n: usize, p: usize, x: u64)
    requires { (p ≤ n) × (n < length order.old) }
    ensures { order.new ≡ inserted order.old n p x }
{
    // no `rotate_right` here, and no `copy_within`: they call memmove, and hosts are promised memcpy and memset alone (the C interface)
    let mut j = n;
    while p < j {
        order[j] = order[j - 1];
        j -= 1;
    }
    order[p] = x;
}

// Puts the one at p behind those up to n, which move one place down.
pub fn remove_at(order: &mut [u64], n: usize, p: usize)
    requires { (p < n) × (n ≤ length order.old) }
    ensures { order.new ≡ removed order.old n p }
{
    // no `rotate_left`, as above
    let x = order[p];
    let mut j = p + 1;
    while j < n {
        order[j - 1] = order[j];
        j += 1;
    }
    order[n - 1] = x;
}

// Whether the node with this header goes before the one at place i.
#[tactic(auto, unfolding(crate::specs::Order::earlier_at))]
pub fn earlier_at(slots: &[u64], order: &[u64], i: usize, header: &[u64; HEADER_WORDS]) -> bool
    requires { (length header.now ≡ header_words) × ((i < length order.now) × (get_or order.now i 0 * slot_words + slot_words ≤ length slots.now)) }
    ensures { result ≡ earlier_at slots.now order.now header.now i }
{
    earlier(header, slots, order[i] as usize)
}

// The place of the node with this header among the first n: behind those that it does not go before. Found by halving, and not by
// `partition_point`, whose test must be callable at any number, while this one asks for a slot's.
pub fn position_for(
    slots: &[u64],
    order: &[u64],
    w: usize,
    n: usize,
    header: &[u64; HEADER_WORDS],
) -> usize
    requires { (length header.now ≡ header_words) × ((w * slot_words ≤ length slots.now) × Inside w n order.now) }
    ensures { (result ≤ n) × (Rising (earlier_at slots.now order.now header.now) n → Cutoff (earlier_at slots.now order.now header.now) n result) }
{
    let mut low = 0;
    let mut high = n;
    while low < high {
        let middle = low + (high - low) / 2;
        if earlier_at(slots, order, middle, header) {
            high = middle;
        } else {
            low = middle + 1;
        }
    }
    low
}

// The last place below p that holds x, or p where none does.
pub fn find_below(order: &[u64], p: usize, x: u64) -> usize
    requires { p ≤ length order.now }
    ensures { FoundBelow order.now p x result }
{
    order[..p].iter().rposition(|y| *y == x).unwrap_or(p)
}
