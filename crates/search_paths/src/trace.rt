// The path to a node, by back pointers.

ghost use Rattle.std.specs.Prelude.{◌≡◌, ◌++◌, reverse, ◌≤◌, ◌<◌, drop};
ghost use Rattle.search_paths.specs.Routes.{back_in, path_by, Traceable};

use beam_order::slots::BACKS_AT;

// The back pointer of slot i of layer k, or 0 where there is none.
#[tactic(auto, unfolding(crate::specs::Routes::back_in))]
fn back_at(words: &[u64], w: usize, k: usize, i: usize) -> u64
    requires { (0 < w) × ((w ≤ 4096) × (k ≤ 256)) }
    ensures { result ≡ back_in words.now w k i }
{
    let at = BACKS_AT * w + (k * w + i % w);
    if at < words.len() { words[at] } else { 0 }
}

// Writes the path to slot i of layer k, the first step first.
pub fn trace(words: &[u64], w: usize, k: usize, i: usize, plan: &mut [u8])
    requires { Traceable plan.old w k }
    ensures { plan.new ≡ reverse (path_by words.now w k i) ++ drop k plan.old }
{
    let mut slot = i;
    for left in (0..k).rev() {
        let back = back_at(words, w, left + 1, slot);
        plan[left] = (back % 256) as u8;
        slot = (back / 256) as usize;
    }
}
