// The lines of a list of file names, part by part: what is known of a line, and whether it is a name.

#![tactic(auto)]

ghost use Rattle.std.specs.Prelude.{◌≡◌, eqb, MatchOption};
ghost use Rattle.month_names.specs.Lines.{Started, Pushed, Scanned, Usable, Unusable, NameIs};

// A line as far as it came: its bytes as far as a name may go; how many there are, 256 where a name may not have so many; whether one of them is 0.
#[derive(Clone, Copy)]
pub struct Line {
    bytes: [u8; 255],
    pub length: usize,
    pub zero: bool,
}

impl Line {
    // A line before its first byte.
    pub fn started() -> Line
        ensures { Started result }
    {
        Line {
            bytes: [0; 255],
            length: 0,
            zero: false,
        }
    }

    // Begins a further line in the place of this one.
    pub fn clear(&mut self)
        ensures { Started self.new }
    {
        self.length = 0;
        self.zero = false;
    }

    // Puts a byte behind the others; it is kept where a name may still have it.
    #[tactic(auto, using(crate::proofs::Pushing::pushed_inside, crate::proofs::Pushing::pushed_beyond))]
    fn push(&mut self, byte: u8)
        ensures { Pushed self.old byte self.new }
    {
        self.zero |= byte == 0;
        if self.length < 255 {
            self.bytes[self.length] = byte;
            self.length += 1;
        } else {
            self.length = 256;
        }
    }

    // Takes the bytes of a part of the list up to a line feed, and gives the place behind it; or all of them, where there is none.
    pub fn scan(&mut self, part: &[u8]) -> Option<usize>
        ensures { Scanned part.now self.old self.new result }
    {
        for (i, byte) in part.iter().enumerate() {
            if *byte == b'\n' {
                return Some(i + 1);
            }
            self.push(*byte);
        }
        None
    }

    // Whether no byte came.
    pub fn is_empty(&self) -> bool
        ensures { result ≡ eqb self.now.length 0 }
    {
        self.length == 0
    }

    // Whether the line is a name that may be opened.
    #[tactic(auto, using(crate::proofs::Pushing::usable_between, crate::proofs::Pushing::unusable_else))]
    pub fn usable(&self) -> bool
        ensures { Usable self.now result }
    {
        match self.length {
            1..=255 => !self.zero,
            _ => false,
        }
    }

    // The name that the line is, where it may be opened.
    #[tactic(auto, using(crate::proofs::Pushing::no_name, crate::proofs::Pushing::this_name))]
    pub fn name(&self) -> Option<&[u8]>
        ensures { MatchOption result (Unusable self.now) (λ name. NameIs self.now name.now) }
    {
        if self.usable() {
            Some(&self.bytes[..self.length])
        } else {
            None
        }
    }
}
