// The forms of the loading profile at the front of the bytes. An object is told by 1 more than its number, none by 0.

ghost use Rattle.std.specs.Prelude.{◌≡◌};
ghost use Rattle.profile.specs.Forms.{variable_zero_in, beside_in, object_in, empty_in};

use eval_sets::bytes::after;
use laws::{byte_at, wide};

// Whether 41 00 stands there.
#[tactic(auto, unfolding(crate::specs::Forms::variable_zero_in))]
fn is_variable_zero(e: &[u8]) -> bool
    ensures { result ≡ variable_zero_in e.now }
{
    byte_at(e, 0) == 0x41 && byte_at(e, 1) == 0
}

// The object k of 30 k 41 00.
#[tactic(auto, unfolding(crate::specs::Forms::beside_in))]
fn object_beside(e: &[u8]) -> u64
    ensures { result ≡ beside_in e.now }
{
    if byte_at(e, 0) == 0x30 && is_variable_zero(after(e, 2)) {
        return wide(byte_at(e, 1)) + 1;
    }
    0
}

// The object k of a first byte and 30 k 41 00: 54 requires it, 43 removes it.
#[tactic(auto, unfolding(crate::specs::Forms::object_in))]
pub fn object_in(e: &[u8], first: u8) -> u64
    ensures { result ≡ object_in first e.now }
{
    if byte_at(e, 0) == first {
        return object_beside(after(e, 1));
    }
    0
}

// Whether 55 41 00 stands there.
#[tactic(auto, unfolding(crate::specs::Forms::empty_in))]
pub fn asks_for_empty(e: &[u8]) -> bool
    ensures { result ≡ empty_in e.now }
{
    byte_at(e, 0) == 0x55 && is_variable_zero(after(e, 1))
}
