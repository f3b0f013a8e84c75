// Domain names.
#![tactic(auto)]

ghost use Rattle.std.specs.Prelude.{ℕ, ◌≤◌, length, drop, not, ◌&&◌, ◌≡◌, Bool};
ghost use Rattle.text.specs.Bytes.{is_dot};
ghost use Rattle.text.specs.Lists.{same};
ghost use Rattle.text.specs.Runs.{is_in};
ghost use Rattle.domain.specs.Names.{all_fit, is_name, is_table_name, label_count, at_or_below};
ghost use Rattle.domain.specs.Normal.{without_dot, lowered, normal, name_answer, name_buffer};
ghost use Rattle.domain.specs.Shortening.{shortened};

use text::bytes::Class;
use text::writing::Writer;
use text::{bytes, words};

// The bytes of the longest name.
pub const MOST_NAME: usize = 253;

// Whether each label is 1 to 63 bytes of a class without the dot: recursive on what follows the first dot. The contract holds for every test
// that differs from the class at the dot alone.
fn labels_fit(s: &[u8], class: Class) -> bool
    ensures { (q : ℕ → Bool) → ((b : ℕ) → is_in class b ≡ (q b && not (is_dot b))) → result ≡ all_fit q s.now }
{
    let end = bytes::run_end(s, 0, class);
    match end {
        1..=63 => match s.get(end) {
            None => true,
            Some(b'.') => labels_fit(&s[end + 1..], class),
            Some(_) => false,
        },
        _ => false,
    }
}

// Whether s is a name, in either case of its letters.
pub fn is_name(s: &[u8]) -> bool
    ensures { result ≡ is_name s.now }
{
    s.len() <= MOST_NAME && labels_fit(s, Class::LabelByte)
}

// Whether s is a name as it stands in the table: no A to Z.
pub fn is_table_name(s: &[u8]) -> bool
    ensures { result ≡ is_table_name s.now }
{
    s.len() <= MOST_NAME && labels_fit(s, Class::TableLabelByte)
}

// The part of s without one trailing dot.
pub fn without_dot(s: &[u8]) -> &[u8]
    ensures { result.now ≡ without_dot s.now }
{
    match s {
        [front @ .., b'.'] => front,
        _ => s,
    }
}

// Writes the name that s is once A to Z are lowered; no dot is dropped.
pub fn write_lowered(s: &[u8], out: &mut [u8]) -> Option<usize>
    ensures value { result ≡ name_answer (lowered s.now) }
    ensures out_after { out.new ≡ name_buffer (lowered s.now) out.old }
{
    if !is_name(s) {
        return None;
    }
    let mut to = Writer::new(out);
    to.put_lowered(s);
    Some(to.at)
}

// Writes the name that s is once one trailing dot is dropped and A to Z are lowered.
pub fn read_name(s: &[u8], out: &mut [u8]) -> Option<usize>
    ensures value { result ≡ name_answer (normal s.now) }
    ensures out_after { out.new ≡ name_buffer (normal s.now) out.old }
{
    write_lowered(without_dot(s), out)
}

// How many labels s has: one more than its dots.
pub fn count_labels(s: &[u8]) -> usize
    ensures { result ≡ label_count s.now }
{
    s.iter().filter(|b| **b == b'.').count() + 1
}

// Whether two names, both in lower case and without a trailing dot, are the same: `==`, with a contract in the words of names.
pub fn equals(a: &[u8], b: &[u8]) -> bool
    ensures { result ≡ same a.now b.now }
{
    words::equal(a, b)
}

// Whether a name is the target or below it, both in lower case and without a trailing dot: the bytes end in those of the target, and what is
// left is nothing or ends in a dot.
pub fn at_or_below(name: &[u8], target: &[u8]) -> bool
    ensures { result ≡ at_or_below name.now target.now }
{
    match name.strip_suffix(target) {
        None => false,
        Some([]) => true,
        Some([.., last]) => *last == b'.',
    }
}

// Where the shortened name begins in s, from a place on: recursive on the place after the next dot. By a place, since a slice takes a larger
// frame.
fn shorten_from(s: &[u8], at: usize) -> usize
    requires { at ≤ length s.now }
    ensures { (result ≤ length s.now) × (drop result s.now ≡ shortened (drop at s.now)) }
{
    if s.len() - at <= MOST_NAME {
        return at;
    }
    let dot = bytes::run_end(s, at, Class::NotDot);
    if dot < s.len() {
        return shorten_from(s, dot + 1);
    }
    at
}

// An over-long name shortened: labels leave from the left, each with its dot, while it is over 253 bytes and a dot remains.
pub fn shorten(s: &[u8]) -> &[u8]
    ensures { result.now ≡ shortened s.now }
{
    let at = shorten_from(s, 0);
    &s[at..]
}
