// A state's words: those of the start, and the order of two states by preference.

ghost use Rattle.std.specs.Prelude.{◌≡◌, ◌++◌, ◌+◌, ◌≤◌, ◌<◌, length, take, drop};
ghost use Rattle.prepare.specs.Prepared.{MasksAt};
ghost use Rattle.model.specs.Numbers.{most_variables};
ghost use Rattle.outline.specs.Outline.{starts_from};
ghost use Rattle.steps.specs.InBytes.{Outlined, StateRoom, state_in, system_in, target_in};
ghost use Rattle.steps.specs.Order.{no_worse_by, no_worse_at};

use laws::copy_words;
use outline::layout::{MASKS, PREFERENCES, PREPARED_WORDS, STARTS, STATE_WORDS, VARIABLE_COUNT};
use outline::word_at;

// Copies the target's words out of the outline.
fn copy_start(outline: &[u64], state: &mut [u64])
    requires { (starts_from + most_variables ≤ length outline.now) × StateRoom state.old }
    ensures { state.new ≡ take most_variables (drop starts_from outline.now) ++ drop most_variables state.old }
{
    copy_words(
        &outline[STARTS..STARTS + STATE_WORDS],
        &mut state[..STATE_WORDS],
    );
}

// Writes the target's words.
pub fn start(model: &[u8], outline: &[u64; PREPARED_WORDS], state: &mut [u64])
    requires { Outlined model.now outline.now × StateRoom state.old }
    ensures { state_in model.now state.new ≡ target_in model.now }
{
    copy_start(outline, state);
}

// Whether t is no worse than s by a preference: 0 none, 1 less, 2 more.
fn no_worse_by(preference: u64, t: u64, s: u64) -> bool
    ensures { result ≡ no_worse_by preference t s }
{
    if preference == 0 {
        return t == s;
    }
    if preference == 1 {
        return t <= s;
    }
    s <= t
}

// Whether variable v of t is no worse than that of s.
fn no_worse_at(outline: &[u64; PREPARED_WORDS], v: usize, t: &[u64], s: &[u64]) -> bool
    requires { (v < most_variables) × MasksAt outline.now v }
    ensures { result ≡ no_worse_at outline.now v t.now s.now }
{
    let mask = word_at(outline, MASKS + 2 * v);
    let preference = word_at(outline, PREFERENCES + v);
    no_worse_by(preference, word_at(t, v) & mask, word_at(s, v) & mask)
}

// Whether state t dominates state s.
pub fn dominates(model: &[u8], outline: &[u64; PREPARED_WORDS], t: &[u64], s: &[u64]) -> bool
    requires { Outlined model.now outline.now }
    ensures { result ≡ (system_in model.now).dominates (state_in model.now t.now) (state_in model.now s.now) }
{
    let count = word_at(outline, VARIABLE_COUNT) as usize;
    for v in 0..count {
        if !no_worse_at(outline, v, t, s) {
            return false;
        }
    }
    true
}
