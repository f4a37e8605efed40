// Transitions of the loading profile: each requires an object of variable 0 and removes it.

ghost use Rattle.std.specs.Prelude.{◌≡◌, not, ◌≤◌, length};
ghost use Rattle.laws.specs.Lists.{any};
ghost use Rattle.model.specs.Profile as profile;
ghost use Rattle.outline.specs.Outline.{model_of};
ghost use Rattle.profile.specs.Says.{BeginsWithSet, SetOutlined, Loadable, BehindConditions, BehindCosts, RequiresSays, RemovedSays, LoadsSays};

use crate::forms::object_in;
use eval_sets::bytes::{after, skip};
use laws::byte_at;
use outline::layout::{PREPARED_WORDS, TRANSITION_COUNT, TRANSITIONS};
use outline::word_at;

// The place behind the conditions 08 from a place on.
fn behind_conditions(model: &[u8], at: usize) -> usize
    ensures { BehindConditions model.now at result }
{
    let mut behind = at;
    // a condition tells where the next one is: no range gives its places
    while byte_at(model, behind) == 8 {
        behind = behind + 1 + skip(after(model, behind + 1));
    }
    behind
}

// The place behind the costs of a transition, 09 at a place and 10 where it is written.
fn behind_costs(model: &[u8], at: usize) -> usize
    requires { at ≤ length model.now }
    ensures { BehindCosts model.now at result }
{
    let behind = at + 1 + skip(after(model, at + 1));
    if byte_at(model, behind) == 0x10 {
        return behind + 1 + skip(after(model, behind + 1));
    }
    behind
}

// Whether one of the conditions 08 from a place on requires the object.
fn requires_object(model: &[u8], at: usize, object: u64) -> bool
    ensures { RequiresSays model.now at object result }
{
    let mut next = at;
    // a condition tells where the next one is: no range gives its places
    while byte_at(model, next) == 8 {
        let e = after(model, next + 1);
        if object_in(e, 0x54) == object {
            return true;
        }
        next = next + 1 + skip(e);
    }
    false
}

// The object that the effects 0A from a place on remove: none where not exactly one of them is on variable 0, or where that one is of another form.
fn removed(model: &[u8], at: usize) -> u64
    requires { BeginsWithSet model.now }
    ensures { RemovedSays model.now at result }
{
    let mut seen = false;
    let mut object: u64 = 0;
    let mut next = at;
    // an effect tells where the next one is: no range gives its places
    while byte_at(model, next) == 10 {
        let e = after(model, next + 2);
        let used = skip(e);
        let target = byte_at(model, next + 1);
        if target == 0 {
            if seen {
                return 0;
            }
            seen = true;
            object = object_in(e, 0x43);
        }
        next = next + 2 + used;
    }
    object
}

// Whether the transition at a place requires an object and removes it.
fn loads(model: &[u8], at: usize) -> bool
    requires { Loadable model.now at }
    ensures { LoadsSays model.now at result }
{
    let costs = behind_conditions(model, at);
    let effects = behind_costs(model, costs);
    let object = removed(model, effects);
    object != 0 && requires_object(model, at, object)
}

// Whether all transitions do.
pub fn all_load(model: &[u8], outline: &[u64; PREPARED_WORDS]) -> bool
    requires { SetOutlined model.now outline.now }
    ensures { result ≡ not (any (λ t. not (profile.loads t)) (model_of model.now).transitions) }
{
    let all = word_at(outline, TRANSITION_COUNT) as usize;
    for t in 0..all {
        if !loads(model, word_at(outline, TRANSITIONS + t) as usize) {
            return false;
        }
    }
    true
}
