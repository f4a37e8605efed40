// Lists of widths: whether one rises, the built-in one, the last entry, and the place of the next.

#![tactic(auto)]

ghost use Rattle.std.specs.Prelude.{◌≡◌, ◌<◌, length, get_or};
ghost use Rattle.search.specs.Run.{listed, rising_from, rising, widest_of};
ghost use Rattle.beam_widths.specs.Lists.{place_behind, BuiltIn};

// The widths of a run to which no list is lent: these, up to W.
pub const WIDTHS: [u16; 13] = [1, 2, 4, 8, 16, 32, 64, 128, 256, 512, 1024, 2048, 4096];

// An entry as a width.
fn width_of(entry: u16) -> usize
    ensures { result ≡ entry }
{
    entry as usize
}

// The width at a place of the list.
pub fn width_at(widths: &[u16], place: usize) -> usize
    requires { place < length widths.now }
    ensures { result ≡ get_or widths.now place 0 }
{
    width_of(widths[place])
}

// The widest: the last entry.
pub fn widest(widths: &[u16]) -> usize
    requires { 0 < length widths.now }
    ensures { result ≡ widest_of (listed widths.now) }
{
    width_at(widths, widths.len() - 1)
}

// The place of the next width in a list of so many: the next entry, the last again at the last.
#[tactic(auto, unfolding(crate::specs::Lists::place_behind))]
pub fn next_place(place: usize, count: usize) -> usize
    requires { place < count }
    ensures { result ≡ place_behind count place }
{
    if place + 1 < count { place + 1 } else { place }
}

// Whether each entry is above the one before it, the first above 0, and none above 4,096.
fn entries_rise(widths: &[u16]) -> bool
    ensures { result ≡ rising_from 0 widths.now }
{
    let mut before: usize = 0;
    for entry in widths {
        let width = width_of(*entry);
        if width <= before || 4096 < width {
            return false;
        }
        before = width;
    }
    true
}

// Whether a list may be lent: 1 to 16 widths from 1 to 4,096 that rise.
#[tactic(auto, unfolding(search::specs::Run::rising))]
pub fn rises(widths: &[u16]) -> bool
    ensures { result ≡ rising widths.now }
{
    (1..=16).contains(&widths.len()) && entries_rise(widths)
}

// How many of the built-in widths there are up to W; none where W is no such width.
pub fn built_in(width: u32) -> usize
    ensures { BuiltIn width result }
{
    let wanted = width as usize;
    for place in 0..WIDTHS.len() {
        if width_of(WIDTHS[place]) == wanted {
            return place + 1;
        }
    }
    0
}
