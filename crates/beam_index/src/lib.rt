// The index of a layer: which slots are used in which bucket. Each chain falls in slot number, so a walk ends at 0.

#![tactic(auto)]

ghost use Rattle.std.specs.Prelude.{◌+◌, ◌≤◌, ◌<◌, length};
ghost use Rattle.beam_index.specs.Links.{Falling, LowLink, Added, Removed, Cleared};

// Makes every link 0.
pub fn clear(links: &mut [u64])
    ensures { Cleared links.new }
{
    links.fill(0);
}

// The place of the first link of bucket b, from its head on, that is at most y.
fn low_link(links: &[u64], w: usize, b: usize, y: usize) -> usize
    requires { (w + b < length links.now) × ((y ≤ w) × Falling w links.now) }
    ensures { LowLink links.now w b y result }
{
    let mut at = w + b;
    let mut link = links[at] as usize;
    // a chain by links: no range gives its places
    while y < link {
        at = link - 1;
        link = links[at] as usize;
    }
    at
}

// Puts slot x into bucket b.
pub fn add(links: &mut [u64], w: usize, b: usize, x: usize)
    requires { (w + b < length links.old) × ((x < w) × Falling w links.old) }
    ensures { Added links.old links.new w b x }
{
    let at = low_link(links, w, b, x);
    links[x] = links[at];
    links[at] = x as u64 + 1;
}

// Takes slot x out of bucket b.
pub fn remove(links: &mut [u64], w: usize, b: usize, x: usize)
    requires { (w + b < length links.old) × ((x < w) × Falling w links.old) }
    ensures { Removed links.old links.new w b x }
{
    let at = low_link(links, w, b, x + 1);
    links[at] = links[x];
}
