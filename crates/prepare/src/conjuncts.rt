// The constraints taken apart over 58, as far as there is room, each conjunct with its guard.

ghost use Rattle.std.specs.Prelude.{◌≡◌, ◌&&◌, ◌+◌, ◌<◌, ◌*◌, eqb, ltb, length, get_or};
ghost use Rattle.outline.specs.Outline.{model_of};
ghost use Rattle.prepare.specs.Layout.{most_conjuncts};
ghost use Rattle.prepare.specs.Promised.{ConjunctSays, ConjunctsPut, Room, Parting, PartedMore, ConjunctPut};

use crate::guards::{Guard, put_guard};
use crate::tests::test_at;
use crate::writing::put;
use eval_sets::bytes::{after, skip};
use laws::byte_at;
use outline::layout::{CONJUNCT_COUNT, CONJUNCTS, CONSTRAINT_COUNT, CONSTRAINTS, MOST_CONJUNCTS};
use outline::word_at;

// The guard of the condition at a place: of 59 57 and a test, the test, and the second part behind it.
fn guarded(model: &[u8], at: usize) -> Guard
    ensures { ConjunctSays model.now at result }
{
    if byte_at(model, at) == 0x59 && byte_at(model, at + 1) == 0x57 {
        if let Some(t) = test_at(model, at + 2) {
            return Guard {
                variable: t.variable,
                mask: t.mask,
                need: t.need,
                behind: at + 2 + t.used,
            };
        }
    }
    Guard {
        variable: 0,
        mask: 0,
        need: 0,
        behind: at,
    }
}

// Whether the condition at a place is taken apart: a conjunction, where there is room for one more.
fn divides(model: &[u8], at: usize, taken: usize) -> bool
    ensures { result ≡ (eqb (get_or model.now at 0) 0x58 && ltb taken most_conjuncts) }
{
    byte_at(model, at) == 0x58 && taken < MOST_CONJUNCTS
}

// Puts the condition at a place as conjunct n.
fn put_conjunct(model: &[u8], outline: &mut [u64], at: usize, n: usize)
    requires { Room model.now outline.old × (n < most_conjuncts) }
    ensures { ConjunctPut model.now outline.old outline.new at n }
{
    let g = guarded(model, at);
    put_guard(outline, CONJUNCTS + 4 * n, g);
}

// Takes constraint k apart behind the first n conjuncts: how many there are then.
fn part(model: &[u8], outline: &mut [u64], k: usize, first: usize) -> usize
    requires { Room model.now outline.old × (Parting model.now outline.old k first × (k < length (model_of model.now).constraints)) }
    ensures { PartedMore model.now outline.old outline.new (k + 1) result }
{
    let left = word_at(outline, CONSTRAINT_COUNT) as usize - k - 1;
    let mut at = word_at(outline, CONSTRAINTS + k) as usize;
    let mut due: usize = 1;
    let mut n = first;
    while 0 < due {
        if divides(model, at, n + due + left) {
            at += 1;
            due += 1;
        } else {
            put_conjunct(model, outline, at, n);
            at += skip(after(model, at));
            n += 1;
            due -= 1;
        }
    }
    n
}

// Takes all constraints apart.
pub fn conjuncts(model: &[u8], outline: &mut [u64])
    requires { Room model.now outline.old }
    ensures { ConjunctsPut model.now outline.old outline.new }
{
    let all = word_at(outline, CONSTRAINT_COUNT) as usize;
    let mut n: usize = 0;
    for k in 0..all {
        n = part(model, outline, k, n);
    }
    let count = [n as u64];
    put(outline, CONJUNCT_COUNT, &count);
}
