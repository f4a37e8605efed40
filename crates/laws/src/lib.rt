// What several crates share: a byte of a string by its place, a byte as a wider number, words copied. The laws of lists and truth
// values are in specs/ and proofs/.

#![tactic(auto)]

ghost use Rattle.std.specs.Prelude.{◌≡◌, ◌<◌, length, get_or};

// The byte at a place, or 0 where there is none.
pub fn byte_at(bytes: &[u8], at: usize) -> u8
    ensures { result ≡ get_or bytes.now at 0 }
{
    if at < bytes.len() { bytes[at] } else { 0 }
}

// The byte's number, with its bound.
pub fn wide(x: u8) -> u64
    ensures { (result ≡ x) × (result < 256) }
{
    x as u64
}

// Copies all words.
pub fn copy_words(from: &[u64], to: &mut [u64])
    requires { length from.now ≡ length to.old }
    ensures { to.new ≡ from.now }
{
    to.copy_from_slice(from);
}
