// A name, what stands behind a part, and the bytes of an expression that is passed over.

ghost use Rattle.std.specs.Prelude.{◌≡◌, ◌<◌, get_or, drop};
ghost use Rattle.eval_sets.specs.Forms.{shape_of, span};

use laws::byte_at;

// What stands behind the first n bytes; nothing where there are no more.
pub fn after(e: &[u8], n: usize) -> &[u8]
    ensures { result.now ≡ drop n e.now }
{
    if n <= e.len() {
        return &e[n..];
    }
    &e[e.len()..]
}

// The first byte as a name's number, 0 where there is none.
pub fn name(e: &[u8]) -> usize
    ensures { (result ≡ get_or e.now 0 0) × (result < 256) }
{
    byte_at(e, 0) as usize
}

// The bytes of operands behind a first byte, and the expressions behind those.
#[derive(Clone, Copy)]
pub struct Shape {
    pub operands: usize,
    pub parts: usize,
}

fn shape_of(b: u8) -> Shape
    ensures { result ≡ shape_of b }
{
    match b {
        0x20 => Shape {
            operands: 4,
            parts: 0,
        },
        0x21 => Shape {
            operands: 1,
            parts: 0,
        },
        0x28 => Shape {
            operands: 1,
            parts: 2,
        },
        0x29 => Shape {
            operands: 0,
            parts: 1,
        },
        0x2a => Shape {
            operands: 1,
            parts: 2,
        },
        0x2b => Shape {
            operands: 0,
            parts: 3,
        },
        0x30 => Shape {
            operands: 1,
            parts: 0,
        },
        0x31 => Shape {
            operands: 1,
            parts: 0,
        },
        0x40 => Shape {
            operands: 9,
            parts: 0,
        },
        0x41 => Shape {
            operands: 1,
            parts: 0,
        },
        0x47 => Shape {
            operands: 0,
            parts: 1,
        },
        0x55 => Shape {
            operands: 0,
            parts: 1,
        },
        0x57 => Shape {
            operands: 0,
            parts: 1,
        },
        _ => Shape {
            operands: 0,
            parts: 2,
        },
    }
}

// The bytes of the expression at the front, by first bytes alone.
pub fn skip(e: &[u8]) -> usize
    ensures { result ≡ span e.now 0 1 }
{
    let mut at: usize = 0;
    let mut due: usize = 1;
    while at < e.len() {
        if due == 0 {
            return at;
        }
        let s = shape_of(e[at]);
        at = at + 1 + s.operands;
        due = due - 1 + s.parts;
    }
    e.len()
}
