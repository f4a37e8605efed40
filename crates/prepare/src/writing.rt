// Words put one behind the other.

ghost use Rattle.std.specs.Prelude.{◌+◌, ◌≤◌, length};
ghost use Rattle.prepare.specs.Promised.{Put};

use laws::copy_words;

// Puts words from a place on.
pub fn put(outline: &mut [u64], at: usize, words: &[u64])
    requires { at + length words.now ≤ length outline.old }
    ensures { Put outline.old outline.new at words.now }
{
    let end = at + words.len();
    copy_words(words, &mut outline[at..end]);
}
