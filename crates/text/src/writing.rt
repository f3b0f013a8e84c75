// Writing bytes into a lent buffer: what fits is stored, and the place counts on.
ghost use Rattle.std.specs.Prelude.{◌≡◌, [], ◌∷◌, map};
ghost use Rattle.text.specs.Bytes.{lower};
ghost use Rattle.text.specs.Writing.{Wrote, Writes};

use crate::bytes;

// A lent buffer that is written from the front on: what fits is stored, and the place counts on.
#[derive(Drop)]
pub struct Writer<'a> {
    pub out: &'a mut [u8],
    pub at: usize,
}

// Writes one byte at a place; answers the place after it. Where there is room the place is a plain sum, on which the next byte needn't wait.
#[inline(always)]
fn put_byte(out: &mut [u8], at: usize, b: u8) -> usize
    ensures { Wrote (b ∷ []) out.old at out.new result }
{
    if at < out.len() {
        out[at] = b;
        at + 1
    } else {
        at.saturating_add(1)
    }
}

// Writes a text from a place on; answers the place after it. Each byte has its own test: the copy of a whole slice is the C library's `memcpy` or `memmove`,
// which the archive for C doesn't need.
fn put_bytes(out: &mut [u8], at: usize, s: &[u8]) -> usize
    ensures { Wrote s.now out.old at out.new result }
{
    let mut next = at;
    for b in s {
        next = put_byte(out, next, *b);
    }
    next
}

impl<'a> Writer<'a> {
    // A writer at the front of a buffer.
    pub fn new(out: &'a mut [u8]) -> Writer<'a>
        ensures out { result.out.now ≡ out.entry.now }
        ensures same { result.out.ghost_name ≡ out.entry.ghost_name }
        ensures at { result.at ≡ 0 }
    {
        Writer { out, at: 0 }
    }

    // Writes one byte.
    pub fn put(&mut self, b: u8)
        ensures { Writes (b ∷ []) self.old self.new }
    {
        self.at = put_byte(self.out, self.at, b);
    }

    // Writes a text.
    pub fn put_all(&mut self, s: &[u8])
        ensures { Writes s.now self.old self.new }
    {
        self.at = put_bytes(self.out, self.at, s);
    }

    // Writes a text with A to Z lowered.
    pub fn put_lowered(&mut self, s: &[u8])
        ensures { Writes (map lower s.now) self.old self.new }
    {
        for b in s {
            self.put(bytes::to_lower(*b));
        }
    }
}
