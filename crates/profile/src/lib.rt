// The loading profile: whether a model is in it, and the length that it chooses.

#![tactic(auto)]

pub mod forms;
pub mod transitions;

ghost use Rattle.std.specs.Prelude.{◌≡◌, true};
ghost use Rattle.model.specs.Profile.{in_profile, begins_with_set, ends_empty, loading_length};
ghost use Rattle.outline.specs.Outline.{model_of, Outlines};
ghost use Rattle.profile.specs.Says.{OnlyEmptySays};

use crate::forms::asks_for_empty;
use crate::transitions::all_load;
use eval_sets::bytes::{after, skip};
use laws::byte_at;
use outline::layout::{BASE_CASE_COUNT, BASE_CASES, KINDS, PREPARED_WORDS, STARTS, VARIABLE_COUNT};
use outline::word_at;
use words::sets::count;
use words::sizes::MOST_OBJECTS;

// Whether variable 0 is a set.
fn begins_with_set(model: &[u8], outline: &[u64; PREPARED_WORDS]) -> bool
    requires { Outlines model.now outline.now (model_of model.now) }
    ensures { result ≡ begins_with_set (model_of model.now).variables }
{
    word_at(outline, VARIABLE_COUNT) != 0 && MOST_OBJECTS < word_at(outline, KINDS)
}

// Whether the conditions 08 at a place are one, that variable 0 is empty.
fn only_empty(model: &[u8], at: usize) -> bool
    ensures { OnlyEmptySays model.now at result }
{
    if byte_at(model, at) == 8 {
        let e = after(model, at + 1);
        return asks_for_empty(e) && byte_at(e, skip(e)) != 8;
    }
    false
}

// Whether there is one base case, and variable 0 is empty in it.
fn ends_empty(model: &[u8], outline: &[u64; PREPARED_WORDS]) -> bool
    requires { Outlines model.now outline.now (model_of model.now) }
    ensures { result ≡ ends_empty (model_of model.now).base_cases }
{
    word_at(outline, BASE_CASE_COUNT) == 1
        && only_empty(model, word_at(outline, BASE_CASES) as usize)
}

// Whether the model is in the loading profile.
pub fn in_profile(model: &[u8], outline: &[u64; PREPARED_WORDS]) -> bool
    requires { Outlines model.now outline.now (model_of model.now) }
    ensures { result ≡ in_profile (model_of model.now) }
{
    begins_with_set(model, outline) && ends_empty(model, outline) && all_load(model, outline)
}

// The length of a run in the profile: how many start members variable 0 has, or 1 if it has none.
pub fn loading_length(model: &[u8], outline: &[u64; PREPARED_WORDS]) -> usize
    requires { Outlines model.now outline.now (model_of model.now) × (in_profile (model_of model.now) ≡ true) }
    ensures { result ≡ loading_length (model_of model.now) }
{
    let members = count(word_at(outline, STARTS)) as usize;
    members.max(1)
}
