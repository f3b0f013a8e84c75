// A part of a text by its places.
ghost use Rattle.std.specs.Prelude.{◌≡◌};
ghost use Rattle.text.specs.Bytes.{part};

use crate::bytes;

// From a place up to another.
#[derive(Clone, Copy, PartialEq, Eq)]
pub struct Span {
    pub from: usize,
    pub to: usize,
}

impl Span {
    // The part of a text, as far as the text goes.
    pub fn of(self, s: &[u8]) -> &[u8]
        ensures { result.now ≡ part s.now self.from self.to }
    {
        bytes::part(s, self.from, self.to)
    }
}
