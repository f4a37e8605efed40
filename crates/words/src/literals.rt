// Numbers in the model's bytes, the lowest byte first.

ghost use Rattle.std.specs.Prelude.{◌≡◌, ◌≤◌, ◌<◌, length};
ghost use Rattle.std.specs.Int.Signed.{mag};
ghost use Rattle.model.specs.Numbers.{range_end};
ghost use Rattle.model.specs.Readers as readers;
ghost use Rattle.model.specs.Readers.{read};

use crate::sizes::{NEGATIVE_FROM, WORD_END};
use laws::wide;

// The first four bytes as one number.
fn word(e: &[u8]) -> u64
    requires { 4 ≤ length e.now }
    ensures { (readers.word 4 e.now ≡ read result 4) × (result < readers.word_end) }
{
    wide(e[0]) + 256 * wide(e[1]) + 65536 * wide(e[2]) + 16777216 * wide(e[3])
}

// The first eight bytes as one number.
pub fn long(e: &[u8]) -> u64
    requires { 8 ≤ length e.now }
    ensures { readers.word 8 e.now ≡ read result 8 }
{
    word(e) + WORD_END * word(&e[4..])
}

// 32 bits in two's complement: counted on from the first that stands for a negative number, and back. No test: one instruction does it.
fn signed(w: u64) -> i64
    requires { w < readers.word_end }
    ensures { (result ≡ readers.signed w) × (mag result < range_end) }
{
    (((w + NEGATIVE_FROM) % WORD_END) as i64) - (NEGATIVE_FROM as i64)
}

// The i32 in the first four bytes.
pub fn integer(e: &[u8]) -> i64
    requires { 4 ≤ length e.now }
    ensures { (readers.integer e.now ≡ read result 4) × (mag result < range_end) }
{
    signed(word(e))
}
