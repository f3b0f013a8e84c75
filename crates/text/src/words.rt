// Words: equality, byte for byte or in either case, and a test of every byte.
ghost use Rattle.std.specs.Prelude.{◌≡◌};
ghost use Rattle.text.specs.Lists.{same, same_word, contains, all};
ghost use Rattle.text.specs.Runs.{is_in};

use crate::bytes;
use crate::bytes::Class;

// Whether two slices hold the same bytes.
pub fn equal(a: &[u8], b: &[u8]) -> bool
    ensures { result ≡ same a.now b.now }
{
    a == b
}

// Whether s is the word, which is in lower case, in either case of its letters.
pub fn equal_word(s: &[u8], word: &[u8]) -> bool
    ensures { result ≡ same_word s.now word.now }
{
    s.len() == word.len() && s.iter().zip(word).all(|(a, b)| bytes::to_lower(*a) == *b)
}

// Whether b stands in s.
pub fn contains(s: &[u8], b: u8) -> bool
    ensures { result ≡ contains s.now b }
{
    s.contains(&b)
}

// Whether every byte is of the class.
pub fn every(s: &[u8], class: Class) -> bool
    ensures { result ≡ all (is_in class) s.now }
{
    s.iter().all(|b| bytes::is_in(class, *b))
}
