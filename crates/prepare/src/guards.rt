// Guards of transitions: leading conditions that test one word, joined into one test.

ghost use Rattle.std.specs.Prelude.{◌≡◌, true, ◌+◌, ◌≤◌, ◌*◌, length};
ghost use Rattle.prepare.specs.Guards.{passes as guard_passes, guard_in};
ghost use Rattle.prepare.specs.Promised.{GuardSays, GuardsPut, Kept, Room, Joins};

use crate::tests::{Test, test_at};
use crate::writing::put;
use laws::byte_at;
use outline::layout::{GUARDS, TRANSITION_COUNT, TRANSITIONS};
use outline::word_at;

// A test of one word, and the place that is read where it passes.
#[derive(Clone, Copy)]
pub struct Guard {
    pub variable: usize,
    pub mask: u64,
    pub need: u64,
    pub behind: usize,
}

// Whether a test can be joined to a guard: on the same word, with other bits. A guard without bits is on any word.
fn joins(variable: usize, mask: u64, t: Test) -> bool
    ensures { result ≡ true → Joins variable mask t }
{
    mask == 0 || variable == t.variable && mask & t.mask == 0
}

// The guard of the transition at a place.
fn guard_of(model: &[u8], at: usize) -> Guard
    ensures { GuardSays model.now at result }
{
    let mut variable: usize = 0;
    let mut mask: u64 = 0;
    let mut need: u64 = 0;
    let mut behind = at;
    while byte_at(model, behind) == 8 {
        match test_at(model, behind + 1) {
            Some(t) if joins(variable, mask, t) => {
                variable = t.variable;
                mask |= t.mask;
                need |= t.need;
                behind = behind + 1 + t.used;
            }
            _ => {
                return Guard {
                    variable,
                    mask,
                    need,
                    behind,
                };
            }
        }
    }
    Guard {
        variable,
        mask,
        need,
        behind,
    }
}

// Puts a guard into the four words from a place on.
pub fn put_guard(outline: &mut [u64], at: usize, g: Guard)
    requires { at + 4 ≤ length outline.old }
    ensures put { guard_in outline.new at ≡ g }
    ensures kept { Kept at outline.old outline.new }
{
    let words = [g.variable as u64, g.mask, g.need, g.behind as u64];
    put(outline, at, &words);
}

// Puts the guards of all transitions.
pub fn guards(model: &[u8], outline: &mut [u64])
    requires { Room model.now outline.old }
    ensures { GuardsPut model.now outline.old outline.new }
{
    let all = word_at(outline, TRANSITION_COUNT) as usize;
    for t in 0..all {
        let at = word_at(outline, TRANSITIONS + t) as usize;
        let g = guard_of(model, at);
        put_guard(outline, GUARDS + 4 * t, g);
    }
}

// Whether the guard in the four words from a place on passes.
pub fn passes(outline: &[u64], at: usize, state: &[u64]) -> bool
    requires { at + 4 ≤ length outline.now }
    ensures { result ≡ guard_passes (guard_in outline.now at) state.now }
{
    let w = word_at(state, outline[at] as usize);
    w & outline[at + 1] == outline[at + 2]
}
