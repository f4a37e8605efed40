// The hash of a state, by the words of its variables without preference.

ghost use Rattle.std.specs.Prelude.{◌≡◌, ◌<◌};
ghost use Rattle.model.specs.Numbers.{most_variables};
ghost use Rattle.prepare.specs.Prepared.{MasksAt};
ghost use Rattle.steps.specs.InBytes.{Outlined};
ghost use Rattle.steps.specs.Hashes.{mix as Hashes·mix, mix_word, mix_at, hash_of};

use outline::layout::{MASKS, PREPARED_WORDS, VARIABLE_COUNT};
use outline::word_at;
use words::sizes::WORD_END;

// 32 bits of x mixed into m.
fn mix(m: u64, x: u64) -> u64
    ensures { result ≡ Hashes·mix m x }
{
    let p = (m % WORD_END + x % WORD_END) % WORD_END * 2654435761;
    p / WORD_END + p % WORD_END
}

// 64 bits of x mixed into m.
fn mix_word(m: u64, x: u64) -> u64
    ensures { result ≡ mix_word m x }
{
    mix(mix(m, x), x / WORD_END)
}

// The word of variable v mixed into m.
fn mix_at(outline: &[u64; PREPARED_WORDS], state: &[u64], v: usize, m: u64) -> u64
    requires { (v < most_variables) × MasksAt outline.now v }
    ensures { result ≡ mix_at outline.now state.now v m }
{
    mix_word(m, word_at(state, v) & word_at(outline, MASKS + 2 * v + 1))
}

// The hash of a state; one that dominates another has the same.
pub fn hash(model: &[u8], outline: &[u64; PREPARED_WORDS], state: &[u64]) -> u64
    requires { Outlined model.now outline.now }
    ensures { result ≡ hash_of outline.now state.now }
{
    let count = word_at(outline, VARIABLE_COUNT) as usize;
    let mut m = 1;
    for v in 0..count {
        m = mix_at(outline, state, v, m);
    }
    m
}
