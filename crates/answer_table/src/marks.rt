// Marks of the pairs that a check has met: 16,384 bits, of which each pair sets two. A pair with a clear one is new.
ghost use Rattle.std.specs.Prelude.{◌<◌, ◌≡◌, replicate};
ghost use Rattle.answer_table.specs.Marks.{digest_of, is_marked, SetsMark, MarksPair, NotesPair};

// How many words the marks take.
const WORDS: usize = 256;

// How many marks there are.
const MARKS: u32 = 16384;

// The highest bits of a number, as many as a mark has, stand above these.
const ABOVE: u32 = 262144;

#[derive(Drop)]
pub struct Marks {
    words: [u64; WORDS],
}

// A number made of a kind and a name; equal pairs have equal numbers.
fn digest(kind: u16, name: &[u8]) -> u32
    ensures { result ≡ digest_of kind name.now }
{
    name.iter().fold(kind as u32, |h, b| {
        h.wrapping_mul(1664525).wrapping_add(*b as u32)
    })
}

impl Marks {
    // No marks yet.
    pub fn new() -> Marks
        ensures { result.words ≡ replicate 256 0 }
    {
        Marks { words: [0; WORDS] }
    }

    // Whether a mark is set.
    fn is_marked(&self, mark: usize) -> bool
        requires { mark < 16384 }
        ensures { result ≡ is_marked self.now.words mark }
    {
        (self.words[mark / 64] >> (mark % 64)) % 2 == 1
    }

    // Sets a mark.
    fn set_mark(&mut self, mark: usize)
        requires { mark < 16384 }
        ensures { SetsMark self.old.words mark self.new.words }
    {
        self.words[mark / 64] |= 1 << (mark % 64);
    }

    // Marks a pair by the lowest and the highest bits of its number; answers whether one of its marks was new, so that no equal pair was marked before.
    pub fn mark_pair(&mut self, kind: u16, name: &[u8]) -> bool
        ensures { MarksPair self.old.words kind name.now result self.new.words }
    {
        let h = digest(kind, name);
        let a = (h % MARKS) as usize;
        let b = (h / ABOVE) as usize;
        if self.is_marked(a) && self.is_marked(b) {
            return false;
        }
        self.set_mark(a);
        self.set_mark(b);
        true
    }
}

// Marks a pair where there are marks; answers whether it is new by them.
pub fn is_new(marks: &mut Option<Marks>, kind: u16, name: &[u8]) -> bool
    ensures { NotesPair kind name.now marks.old result marks.new }
{
    match marks {
        Some(marks) => marks.mark_pair(kind, name),
        None => false,
    }
}
