// A list of names as it is read, line by line.

ghost use Rattle.std.specs.Prelude.{◌≤◌};
ghost use Rattle.month.specs.Taking.{LineSays};

use month_names::Line;
use std::io;
use std::io::Read;

// The list; what was read of it and is not taken yet lies in the buffer, from `at` to `end`.
#[derive(Drop)]
pub struct List<R> {
    input: R,
    buffer: [u8; 4096],
    at: usize,
    end: usize,
    ghost left: { at ≤ end },
    ghost within: { end ≤ 4096 },
}

// What ends a line: a line feed, or the end of the list.
#[derive(Clone, Copy)]
pub enum LineEnd {
    Feed,
    Over,
}

impl<R: Read> List<R> {
    // A list before its first byte.
    pub fn new(input: R) -> List<R> {
        List {
            input,
            buffer: [0; 4096],
            at: 0,
            end: 0,
        }
    }

    // Reads a line in the place of this one.
    #[tactic(auto, using(crate::proofs::Taken::line_begins, crate::proofs::Taken::line_goes_on))]
    pub fn read_line(&mut self, line: &mut Line) -> io::Result<LineEnd>
        ensures { LineSays line.new }
    {
        line.clear();
        for _ in 0..u64::MAX {
            if let Some(n) = line.scan(&self.buffer[self.at..self.end]) {
                self.at += n;
                return Ok(LineEnd::Feed);
            }
            self.at = 0;
            self.end = 0;
            self.end = self.input.read(&mut self.buffer)?;
            if self.end == 0 {
                return Ok(LineEnd::Over);
            }
        }
        Err(io::ErrorKind::Other.into())
    }
}
