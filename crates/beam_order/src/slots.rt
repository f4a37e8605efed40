// A slot holds one node of a layer, its header first; a layer in the making and the working words of a round are made of slots. specs/Slots
// has the same names.

ghost use Rattle.std.specs.Prelude.{◌≡◌, ◌+◌, ◌*◌, ◌≤◌, length, drop};
ghost use Rattle.beam_order.specs.Slots.{header_words, slot_words, words_in, g_of, f_of, earlier as Slots·earlier};

use model::Cost;
use outline::layout::STATE_WORDS;

// Which word of a header holds what: g has three words, f has two.
pub const G_AT: usize = 0;

pub const LOW_AT: usize = 1;

pub const MOVES_AT: usize = 2;

pub const H_AT: usize = 3;

pub const F_AT: usize = 4;

pub const F_MOVES_AT: usize = 5;

pub const BACK_AT: usize = 6;

pub const HEADER_WORDS: usize = 7;

// A slot: the header, then the words of the state.
pub const STATE_AT: usize = HEADER_WORDS;

pub const SLOT_WORDS: usize = STATE_AT + STATE_WORDS;

// Of a layer in the making, for each place of the width: its slots, their order, its index of five words a slot.
pub const ORDER_AT: usize = SLOT_WORDS;

pub const LINKS_AT: usize = ORDER_AT + 1;

pub const LAYER_WORDS: usize = LINKS_AT + 5;

// Of the working words, for each place of the width: the slots of the current layer, the layer in the making, the back pointers.
pub const NEXT_AT: usize = SLOT_WORDS;

pub const NEXT_ORDER_AT: usize = NEXT_AT + ORDER_AT;

pub const NEXT_END: usize = NEXT_AT + LAYER_WORDS;

pub const BACKS_AT: usize = 64;

// g of the node whose words begin there.
pub fn g_in(words: &[u64], at: usize) -> Cost
    requires { at + header_words ≤ length words.now }
    ensures { result ≡ g_of (drop at words.now) }
{
    Cost {
        high: words[at + G_AT],
        low: words[at + LOW_AT],
        moves: words[at + MOVES_AT],
    }
}

// f of the node whose words begin there.
pub fn f_in(words: &[u64], at: usize) -> Cost
    requires { at + header_words ≤ length words.now }
    ensures { result ≡ f_of (drop at words.now) }
{
    Cost {
        high: words[at + F_AT],
        low: words[at + LOW_AT],
        moves: words[at + F_MOVES_AT],
    }
}

// Whether the node with this header goes before the one in slot s: by the hours of f, then by its moves, then by h. Written with && and ||, or
// with one test for numbers that differ, it makes `position_for` up to a quarter slower.
pub fn earlier(header: &[u64; HEADER_WORDS], slots: &[u64], s: usize) -> bool
    requires { (length header.now ≡ header_words) × (s * slot_words + slot_words ≤ length slots.now) }
    ensures { result ≡ Slots·earlier header.now (words_in slots.now s) }
{
    let at = s * SLOT_WORDS;
    let f = header[F_AT];
    let other = slots[at + F_AT];
    if f < other {
        return true;
    }
    if other < f {
        return false;
    }
    let moves = header[F_MOVES_AT];
    let others = slots[at + F_MOVES_AT];
    if moves < others {
        return true;
    }
    if others < moves {
        return false;
    }
    header[H_AT] < slots[at + H_AT]
}
