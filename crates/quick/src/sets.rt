// A set variable with an element added or taken out, or joined to a set, and an object's membership in one, in place.

ghost use Rattle.std.specs.Prelude.{◌≡◌, true, ◌<◌};
ghost use Rattle.model.specs.Numbers.{most_objects};
ghost use Rattle.prepare.specs.Forms.{MemberForm};
ghost use Rattle.quick.specs.Sets.{begins_element, object_in, changes_set, ChangedForm, changed_in, JoinedForm, joined_in, member_in};

use laws::{byte_at, wide};
use outline::layout::STATE_WORDS;
use outline::word_at;
use prepare::tests::stands;
use words::literals::long;
use words::sets::{difference, is_member, single, union};
use words::sizes::MOST_OBJECTS;

// Whether an element begins with this byte: 30 or 31.
#[tactic(auto, unfolding(crate::specs::Sets::begins_element))]
pub fn begins_element(b: u8) -> bool
    ensures { result ≡ begins_element b }
{
    b == 0x30 || b == 0x31
}

// The object of the element 30 k, or of the element variable 31 k.
#[tactic(auto, unfolding(crate::specs::Sets::object_in))]
pub fn object(b: u8, k: u8, state: &[u64; STATE_WORDS]) -> u64
    ensures { (result ≡ object_in b k state.now) × (result < most_objects) }
{
    if b == 0x30 {
        return wide(k) % MOST_OBJECTS;
    }
    word_at(state, k as usize) % MOST_OBJECTS
}

// Whether this byte adds an element or takes it out: 42 or 43.
#[tactic(auto, unfolding(crate::specs::Sets::changes_set))]
fn changes_set(b: u8) -> bool
    ensures { result ≡ changes_set b }
{
    b == 0x42 || b == 0x43
}

// Whether 42 or 43, an element and 41 u stand at a place.
pub fn is_changed(model: &[u8], at: usize) -> bool
    ensures { result ≡ true → ChangedForm model.now at }
{
    stands(model, at, 5)
        && changes_set(model[at])
        && begins_element(model[at + 1])
        && model[at + 3] == 0x41
}

// The set variable's members with the element, or without it.
#[tactic(auto, unfolding(crate::specs::Sets::changed_by))]
pub fn changed(model: &[u8], at: usize, state: &[u64; STATE_WORDS]) -> u64
    requires { ChangedForm model.now at }
    ensures { result ≡ changed_in model.now at state.now }
{
    let k = single(object(model[at + 1], model[at + 2], state));
    let s = word_at(state, byte_at(model, at + 4) as usize);
    if model[at] == 0x42 {
        return union(k, s);
    }
    difference(s, k)
}

// Whether 44 41 v 40 n and eight bytes stand at a place.
pub fn is_joined(model: &[u8], at: usize) -> bool
    ensures { result ≡ true → JoinedForm model.now at }
{
    stands(model, at, 13) && model[at] == 0x44 && model[at + 1] == 0x41 && model[at + 3] == 0x40
}

// The members of the set variable and those that the eight bytes are.
pub fn joined(model: &[u8], at: usize, state: &[u64; STATE_WORDS]) -> u64
    requires { JoinedForm model.now at }
    ensures { result ≡ joined_in model.now at state.now }
{
    let s = word_at(state, byte_at(model, at + 2) as usize);
    union(s, long(&model[at + 5..]))
}

// Whether the object k is a member of the set variable v, where 54 30 k 41 v stands.
pub fn membership(model: &[u8], at: usize, state: &[u64; STATE_WORDS]) -> bool
    requires { MemberForm model.now at }
    ensures { result ≡ member_in model.now at state.now }
{
    let k = object(0x30, byte_at(model, at + 2), state);
    is_member(k, word_at(state, byte_at(model, at + 4) as usize))
}
