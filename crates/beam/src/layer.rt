// A layer, in one slice: nodes are taken in, taken out, offered by rule 5, and dropped by rule 6.

ghost use Rattle.std.specs.Prelude.{◌≡◌, ◌+◌, ◌-◌, ◌*◌, ◌^◌, ◌≤◌, ◌<◌, length};
ghost use mathlib.Core.List.{◌++◌, drop_last};
ghost use Rattle.steps.specs.InBytes.{Outlined};
ghost use Rattle.beam_order.specs.Slots.{header_words, layer_words, placed};
ghost use Rattle.beam_order.specs.Order.{without, earlier_at, Rising, Cutoff};
ghost use Rattle.beam_index.specs.Links.{Found};
ghost use Rattle.beam.specs.Nodes.{ChildWords};
ghost use Rattle.beam.specs.Parts.{sought as slot_sought};
ghost use Rattle.beam.specs.Layers.{slots_of, order_of, links_of, kept_of, Indexed, Keeping, Offering, Walkable, PlaceIn, SlotIn, SlotRemoved, unbeaten, InsertedInto, Layer, Below, Emptied};

use crate::buckets::{bucket, slot_bucket};
use crate::slots::{sought, write_slot};
use beam_order::slots::{HEADER_WORDS, LAYER_WORDS, LINKS_AT, ORDER_AT, SLOT_WORDS, f_in};
use costs::less;
use model::Cost;
use outline::layout::{PREPARED_WORDS, STATE_WORDS};

// How many nodes a layer has after an insertion, and whether one was cut.
#[derive(Clone, Copy)]
pub struct Inserted {
    pub count: usize,
    pub cut: bool,
}

// Makes a layer empty.
pub fn empty(layer: &mut [u64], w: usize)
    requires { (0 < w) × ((w ≤ 2 ^ 30) × (layer_words * w ≤ length layer.old)) }
    ensures { Emptied w layer.new }
{
    let a = ORDER_AT * w;
    let b = LINKS_AT * w;
    let e = LAYER_WORDS * w;
    beam_order::fill(&mut layer[a..b]);
    beam_index::clear(&mut layer[b..e]);
}

// Takes the node at place p, which is in bucket k, out.
fn remove_position(
    layer: &mut [u64],
    outline: &[u64; PREPARED_WORDS],
    w: usize,
    n: usize,
    k: usize,
    p: usize,
)
    requires { PlaceIn outline.now w n k p layer.old }
    ensures { Keeping outline.now w (n - 1) layer.new (without p (kept_of w layer.old n)) }
{
    let a = ORDER_AT * w;
    let b = LINKS_AT * w;
    let e = LAYER_WORDS * w;
    let s = layer[a + p] as usize;
    beam_index::remove(&mut layer[b..e], w, k, s);
    beam_order::remove_at(&mut layer[a..b], n, p);
}

// The place of the node with this header among the first n.
fn position_in(layer: &[u64], w: usize, n: usize, header: &[u64; HEADER_WORDS]) -> usize
    requires { Layer w n layer.now × (length header.now ≡ header_words) }
    ensures { (result ≤ n) × (Rising (earlier_at (slots_of w layer.now) (order_of w layer.now) header.now) n → Cutoff (earlier_at (slots_of w layer.now) (order_of w layer.now) header.now) n result) }
{
    let a = ORDER_AT * w;
    let b = LINKS_AT * w;
    beam_order::position_for(&layer[..a], &layer[a..b], w, n, header)
}

// Whether the node with this header goes before the last of a full layer.
fn before_last(layer: &[u64], w: usize, header: &[u64; HEADER_WORDS]) -> bool
    requires { (0 < w) × (Layer w w layer.now × (length header.now ≡ header_words)) }
    ensures { result ≡ earlier_at (slots_of w layer.now) (order_of w layer.now) header.now (w - 1) }
{
    let a = ORDER_AT * w;
    let b = LINKS_AT * w;
    beam_order::earlier_at(&layer[..a], &layer[a..b], w - 1, header)
}

// The link to a node of bucket k that beats the child, or, for beaten, that the child beats; 0 where there is none.
fn find_in(
    layer: &[u64],
    model: &[u8],
    outline: &[u64; PREPARED_WORDS],
    w: usize,
    k: usize,
    header: &[u64; HEADER_WORDS],
    state: &[u64; STATE_WORDS],
    beaten: bool,
) -> usize
    requires { Outlined model.now outline.now × (Walkable w k layer.now × ChildWords header.now state.now) }
    ensures { Found (links_of w layer.now) w k (slot_sought model.now (slots_of w layer.now) (header.now ++ state.now) beaten) result }
{
    let b = LINKS_AT * w;
    let mut next = layer[b + (w + k)] as usize;
    // a chain by links: no range gives its places
    while 0 < next {
        let s = next - 1;
        if sought(model, outline, layer, s, header, state, beaten) {
            return next;
        }
        next = layer[b + s] as usize;
    }
    0
}

// Takes the child, whose bucket is k, in.
fn add_child(
    layer: &mut [u64],
    outline: &[u64; PREPARED_WORDS],
    w: usize,
    n: usize,
    k: usize,
    header: &[u64; HEADER_WORDS],
    state: &[u64; STATE_WORDS],
)
    requires { Offering outline.now w n k layer.old header.now state.now × (n < w) }
    ensures { Keeping outline.now w (n + 1) layer.new (placed (header.now ++ state.now) (kept_of w layer.old n)) }
{
    let a = ORDER_AT * w;
    let b = LINKS_AT * w;
    let e = LAYER_WORDS * w;
    let p = position_in(layer, w, n, header);
    let x = layer[a + n];
    beam_order::insert_at(&mut layer[a..b], n, p, x);
    let s = x as usize;
    write_slot(&mut layer[..a], s, header, state);
    beam_index::add(&mut layer[b..e], w, k, s);
}

// Takes the node in slot s, which is in bucket k, out.
fn remove_slot(
    layer: &mut [u64],
    outline: &[u64; PREPARED_WORDS],
    w: usize,
    n: usize,
    k: usize,
    s: usize,
)
    requires { SlotIn outline.now w n k s layer.old }
    ensures { SlotRemoved outline.now w n s layer.old layer.new }
{
    let a = ORDER_AT * w;
    let b = LINKS_AT * w;
    let at = s * SLOT_WORDS;
    let mut header = [0u64; HEADER_WORDS];
    header.copy_from_slice(&layer[at..at + HEADER_WORDS]);
    let end = position_in(layer, w, n, &header);
    let p = beam_order::find_below(&layer[a..b], end, s as u64);
    remove_position(layer, outline, w, n, k, p);
}

// Takes out each node that the child, whose bucket is k, beats; answers how many are left.
fn remove_beaten(
    layer: &mut [u64],
    model: &[u8],
    outline: &[u64; PREPARED_WORDS],
    w: usize,
    n: usize,
    k: usize,
    header: &[u64; HEADER_WORDS],
    state: &[u64; STATE_WORDS],
) -> usize
    requires { Offering outline.now w n k layer.old header.now state.now × Outlined model.now outline.now }
    ensures { Keeping outline.now w result layer.new (unbeaten model.now (header.now ++ state.now) (kept_of w layer.old n)) }
{
    let mut left = n;
    let mut link = find_in(layer, model, outline, w, k, header, state, true);
    // a chain by links: no range gives its places
    while 0 < link {
        remove_slot(layer, outline, w, left, k, link - 1);
        left -= 1;
        link = find_in(layer, model, outline, w, k, header, state, true);
    }
    left
}

// The child, whose bucket is k, takes the place of the last node of a full layer.
fn replace_last(
    layer: &mut [u64],
    model: &[u8],
    outline: &[u64; PREPARED_WORDS],
    w: usize,
    k: usize,
    header: &[u64; HEADER_WORDS],
    state: &[u64; STATE_WORDS],
)
    requires { Offering outline.now w w k layer.old header.now state.now × Outlined model.now outline.now }
    ensures { Keeping outline.now w w layer.new (placed (header.now ++ state.now) (drop_last (kept_of w layer.old w))) }
{
    let a = ORDER_AT * w;
    let p = w - 1;
    let s = layer[a + p] as usize;
    let other = slot_bucket(model, outline, &layer[..a], s, 4 * w);
    remove_position(layer, outline, w, w, other, p);
    add_child(layer, outline, w, p, k, header, state);
}

// Rule 5: offers the child with this header and state to a layer of n nodes, at most width.
pub fn insert(
    layer: &mut [u64],
    model: &[u8],
    outline: &[u64; PREPARED_WORDS],
    width: usize,
    n: usize,
    header: &[u64; HEADER_WORDS],
    state: &[u64; STATE_WORDS],
) -> Inserted
    requires { Indexed outline.now width n layer.old × (Outlined model.now outline.now × (length header.now ≡ header_words)) }
    ensures { InsertedInto model.now outline.now width n result.count result.cut layer.old layer.new (header.now ++ state.now) }
{
    let k = bucket(model, outline, state, 4 * width);
    if 0 < find_in(layer, model, outline, width, k, header, state, false) {
        return Inserted {
            count: n,
            cut: false,
        };
    }
    let m = remove_beaten(layer, model, outline, width, n, k, header, state);
    if m < width {
        add_child(layer, outline, width, m, k, header, state);
        return Inserted {
            count: m + 1,
            cut: false,
        };
    }
    if before_last(layer, width, header) {
        replace_last(layer, model, outline, width, k, header, state);
        return Inserted {
            count: width,
            cut: true,
        };
    }
    Inserted {
        count: width,
        cut: true,
    }
}

// Rule 6: how many of n nodes have an f below the best; they stand first.
pub fn keep_below(layer: &[u64], width: usize, n: usize, best: Cost) -> usize
    requires { Layer width n layer.now }
    ensures { Below width n result best layer.now }
{
    let a = ORDER_AT * width;
    for i in (0..n).rev() {
        let s = layer[a + i] as usize;
        let f = f_in(layer, s * SLOT_WORDS);
        if less(f, best) {
            return i + 1;
        }
    }
    0
}
