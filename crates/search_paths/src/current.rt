// The current layer: its nodes one after the other, from slot 0 on.

ghost use Rattle.std.specs.Prelude.{◌≡◌, ◌+◌, ◌*◌, ◌≤◌, length};
ghost use Rattle.beam_order.specs.Slots.{slot_words, words_in};
ghost use Rattle.search_paths.specs.Routes.{Startable, Started, Takeable, NodeTakeable, NodeTaken, Taken};

use beam::layer::empty;
use beam_order::slots::{BACK_AT, BACKS_AT, NEXT_AT, NEXT_END, NEXT_ORDER_AT, SLOT_WORDS};

// Copies the words of the node in slot i.
pub fn copy_node(words: &[u64], i: usize, node: &mut [u64])
    requires { (i * slot_words + slot_words ≤ length words.now) × (length node.old ≡ slot_words) }
    ensures { node.new ≡ words_in words.now i }
{
    let at = i * SLOT_WORDS;
    node.copy_from_slice(&words[at..at + SLOT_WORDS]);
}

// Rule 1: a round starts with the root alone.
pub fn start_round(words: &mut [u64], root: &[u64; SLOT_WORDS], w: usize)
    requires { Startable root.now words.old w }
    ensures { Started root.now words.new w }
{
    words[..SLOT_WORDS].copy_from_slice(root);
    let a = NEXT_AT * w;
    let e = NEXT_END * w;
    empty(&mut words[a..e], w);
}

// The node at place i of the layer in the making goes into slot i of the current layer, which becomes layer k.
fn take_node(words: &mut [u64], w: usize, k: usize, i: usize)
    requires { NodeTakeable words.old w k i }
    ensures { NodeTaken words.old words.new w k i }
{
    let mut node = [0u64; SLOT_WORDS];
    let s = words[NEXT_ORDER_AT * w + i] as usize;
    copy_node(words, w + s, &mut node);
    let at = i * SLOT_WORDS;
    words[at..at + SLOT_WORDS].copy_from_slice(&node);
    words[BACKS_AT * w + (k * w + i)] = node[BACK_AT];
}

// The n nodes of the layer in the making, the children of layer k, become the current layer; none is in the making then.
pub fn next_layer(words: &mut [u64], w: usize, k: usize, n: usize)
    requires { Takeable words.old w k n }
    ensures { Taken words.old words.new w k n }
{
    for i in 0..n {
        take_node(words, w, k + 1, i);
    }
    let a = NEXT_AT * w;
    let e = NEXT_END * w;
    empty(&mut words[a..e], w);
}
