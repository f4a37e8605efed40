// Conditions that test one word of a state: a member that is there, 54 30 k 41 v, or is not, 57 54 30 k 41 v; members that are not,
// 55 45 40 n members 41 v; an element, 53 31 v 30 k.

ghost use Rattle.std.specs.Prelude.{◌≡◌, true, IfSome, ◌+◌, ◌≤◌, length};
ghost use Rattle.prepare.specs.Promised.{TestSays, TestWithin};
ghost use Rattle.prepare.specs.Forms.{MemberForm, MissingForm, AbsentForm, SameForm};

use eval_sets::bytes::after;
use laws::{byte_at, wide};
use words::literals::long;
use words::sets::single;
use words::sizes::MOST_OBJECTS;

// A test of one word: under the mask it is as needed. It takes so many bytes.
#[derive(Clone, Copy)]
pub struct Test {
    pub variable: usize,
    pub mask: u64,
    pub need: u64,
    pub used: usize,
}

// Whether n bytes stand at a place.
pub fn stands(model: &[u8], at: usize, n: usize) -> bool
    ensures { result ≡ true → at + n ≤ length model.now }
{
    n <= model.len() && at <= model.len() - n
}

// Whether 54 30 k 41 v stands at a place: an object is a member of a set variable.
pub fn is_member(model: &[u8], at: usize) -> bool
    ensures { result ≡ true → MemberForm model.now at }
{
    stands(model, at, 5) && model[at] == 0x54 && model[at + 1] == 0x30 && model[at + 3] == 0x41
}

// Whether 55 45 40 n members 41 v stands at a place.
fn is_missing(model: &[u8], at: usize) -> bool
    ensures { result ≡ true → MissingForm model.now at }
{
    stands(model, at, 14)
        && model[at] == 0x55
        && model[at + 1] == 0x45
        && model[at + 2] == 0x40
        && model[at + 12] == 0x41
}

// Whether 57 54 30 k 41 v stands at a place.
fn is_absent(model: &[u8], at: usize) -> bool
    ensures { result ≡ true → AbsentForm model.now at }
{
    byte_at(model, at) == 0x57 && is_member(model, at + 1)
}

// Whether 53 31 v 30 k stands at a place.
fn is_same(model: &[u8], at: usize) -> bool
    ensures { result ≡ true → SameForm model.now at }
{
    stands(model, at, 5) && model[at] == 0x53 && model[at + 1] == 0x31 && model[at + 3] == 0x30
}

// The test of a member that is not there, or of an element.
fn other_test(model: &[u8], at: usize) -> Option<Test>
    ensures says { IfSome result (TestSays model.now at) }
    ensures within { IfSome result TestWithin }
{
    if is_absent(model, at) {
        let bit = single(wide(byte_at(model, at + 3)) % MOST_OBJECTS);
        return Some(Test {
            variable: byte_at(model, at + 5) as usize,
            mask: bit,
            need: 0,
            used: 6,
        });
    }
    if is_same(model, at) {
        return Some(Test {
            variable: byte_at(model, at + 2) as usize,
            mask: MOST_OBJECTS - 1,
            need: wide(byte_at(model, at + 4)) % MOST_OBJECTS,
            used: 5,
        });
    }
    None
}

// The test that the condition at a place makes, if it is one.
pub fn test_at(model: &[u8], at: usize) -> Option<Test>
    ensures says { IfSome result (TestSays model.now at) }
    ensures within { IfSome result TestWithin }
{
    if is_member(model, at) {
        let bit = single(wide(byte_at(model, at + 2)) % MOST_OBJECTS);
        return Some(Test {
            variable: byte_at(model, at + 4) as usize,
            mask: bit,
            need: bit,
            used: 5,
        });
    }
    if is_missing(model, at) {
        return Some(Test {
            variable: byte_at(model, at + 13) as usize,
            mask: long(after(model, at + 4)),
            need: 0,
            used: 14,
        });
    }
    other_test(model, at)
}
