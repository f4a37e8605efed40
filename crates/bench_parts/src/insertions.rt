// Children offered to one layer, to be timed; see host/bench.

ghost use Rattle.std.specs.Prelude.{length, ◌≡◌};
ghost use Rattle.bench_parts.specs.Timed.{next_of, child_header, child_state, kept_after, Offerable, layer_fits, insertions};

use beam::layer::{empty, insert};
use beam_order::slots::{F_AT, G_AT, H_AT, HEADER_WORDS, LAYER_WORDS};
use model::length_fits;
use outline::layout::{PREPARED_WORDS, STATE_WORDS};
use prepare::read_and_prepare;

// The next of a row of numbers below 2^32.
fn next(x: u64) -> u64
    ensures { result ≡ next_of x }
{
    (x % 4294967296 * 1664525 + 1013904223) % 4294967296
}

// The header of the child by x: g, h and their sum as f.
fn make_header(x: u64) -> [u64; HEADER_WORDS]
    ensures { result ≡ child_header x }
{
    let y = next(x);
    let g = y / 1048576;
    let h = y / 65536 % 64;
    let mut header = [0u64; HEADER_WORDS];
    header[G_AT] = g;
    header[H_AT] = h;
    header[F_AT] = g + h;
    header
}

// The state of the child by x: two words, then zeros.
fn make_state(x: u64) -> [u64; STATE_WORDS]
    ensures { result ≡ child_state x }
{
    let mut state = [0u64; STATE_WORDS];
    state[0] = x / 65536 % 4096;
    state[1] = next(x) / 256 % 64;
    state
}

// Offers children to an empty layer of width w, from the number `seed` on; answers how many are kept.
fn offer_children(
    layer: &mut [u64],
    model: &[u8],
    outline: &[u64; PREPARED_WORDS],
    w: usize,
    children: u64,
    seed: u64,
) -> usize
    requires { Offerable model.now outline.now w layer.old }
    ensures { result ≡ kept_after model.now w children seed }
{
    empty(layer, w);
    let mut count: usize = 0;
    let mut x = seed;
    for _child in 0..children {
        let header = make_header(x);
        let state = make_state(x);
        let inserted = insert(layer, model, outline, w, count, &header, &state);
        count = inserted.count;
        x = next(x);
    }
    count
}

// Whether the width is from 1 to 4,096 and so many words hold a layer of it.
fn layer_fits(w: usize, words: usize) -> bool
    ensures { result ≡ layer_fits w words }
{
    if w == 0 {
        return false;
    }
    if 4096 < w {
        return false;
    }
    LAYER_WORDS * w <= words
}

// The same on the bytes of a model: 0 where the model is too long or refused, the width is not from 1 to 4,096 or less than LAYER_WORDS × width words are lent.
pub fn repgypsum_insertions(
    model: &[u8],
    words: &mut [u64],
    width: u32,
    children: u32,
    seed: u32,
) -> u64
    ensures { result ≡ insertions model.now (length words.old) width children seed }
{
    if length_fits(model.len()) {
        let w = width as usize;
        if layer_fits(w, words.len()) {
            let mut outline = [0u64; PREPARED_WORDS];
            return match read_and_prepare(model, &mut outline) {
                Ok(()) => offer_children(
                    words,
                    model,
                    &outline,
                    w,
                    children as u64,
                    seed as u64,
                ) as u64,
                Err(_) => 0,
            };
        }
        return 0;
    }
    0
}
