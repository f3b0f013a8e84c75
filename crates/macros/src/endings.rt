// How a domain-spec may end: in a dot and a top label, perhaps with one more dot.
ghost use Rattle.std.specs.Prelude.{◌≡◌};
ghost use Rattle.text.specs.Bytes.{is_dot};
ghost use Rattle.text.specs.Lists.{split};
ghost use Rattle.macros.specs.Reader.{is_toplabel, last_label, ends_in_label};

use text::bytes::Class;
use text::{bytes, words};

// Whether a label is a top label; the empty one counts as all digits.
fn is_toplabel(l: &[u8]) -> bool
    ensures { result ≡ is_toplabel l.now }
{
    if !words::every(l, Class::ToplabelByte) {
        return false;
    }
    if words::every(l, Class::Digit) {
        return false;
    }
    let last = l.len().saturating_sub(1);
    bytes::is_in(Class::Alphanumeric, bytes::peek(l, 0))
        && bytes::is_in(Class::Alphanumeric, bytes::peek(l, last))
}

// What stands after the last dot; nothing where there is no dot.
fn last_label(s: &[u8]) -> &[u8]
    ensures { result.now ≡ last_label (split is_dot s.now) }
{
    let i = bytes::trailing_start(s, Class::NotDot);
    if i == 0 { &s[..0] } else { &s[i..] }
}

// Whether a text ends in a dot and a top label, perhaps with one more dot.
pub fn ends_in_label(s: &[u8]) -> bool
    ensures { result ≡ ends_in_label s.now }
{
    is_toplabel(last_label(domain::without_dot(s)))
}
