// A value as the line shows it: dot-atom-text as it stands, any other in quotes; and back.
ghost use Rattle.std.specs.Prelude.{◌≤◌, ◌<◌, ◌≡◌, length};
ghost use Rattle.text.specs.Lists.{same};
ghost use Rattle.text.specs.Writing.{Writes};
ghost use Rattle.received.specs.Atoms.{is_atext};
ghost use Rattle.received.specs.Quoting.{is_marked, escaped_byte, escaped, unescaped};
ghost use Rattle.received.specs.Numbers.{Says};
ghost use Rattle.received.specs.Answers.{most_value};
ghost use Rattle.received.specs.States.{atom_step, is_dot_atom_text, Placed, valued};
ghost use Rattle.received.specs.Texts.{formed};

use crate::{LineError, MOST_PART};
use text::bytes::Class;
use text::writing::Writer;
use text::{bytes, words};

// atext of RFC 5322 section 3.2.3.
pub fn is_atext(b: u8) -> bool
    ensures { result ≡ is_atext b }
{
    bytes::is_in(Class::Alphanumeric, b) || words::contains(b"!#$%&'*+-/=?^_`{|}~", b)
}

// How far a text is dot-atom-text: before an atom, within one, or not at all.
#[derive(Clone, Copy)]
pub enum Atoms {
    Before,
    Within,
    Failed,
}

// A byte more of dot-atom-text.
fn atom_step(state: Atoms, b: u8) -> Atoms
    ensures { result ≡ atom_step state b }
{
    match state {
        Atoms::Before => {
            if is_atext(b) {
                Atoms::Within
            } else {
                Atoms::Failed
            }
        }
        Atoms::Within => {
            if b == b'.' {
                Atoms::Before
            } else if is_atext(b) {
                Atoms::Within
            } else {
                Atoms::Failed
            }
        }
        Atoms::Failed => Atoms::Failed,
    }
}

// Whether a value is dot-atom-text.
fn is_dot_atom_text(s: &[u8]) -> bool
    ensures { result ≡ is_dot_atom_text s.now }
{
    let mut state = Atoms::Before;
    for b in s {
        state = atom_step(state, *b);
    }
    matches!(state, Atoms::Within)
}

// Whether a byte is a quote or a backslash.
fn is_marked(b: u8) -> bool
    ensures { result ≡ is_marked b }
{
    b == b'"' || b == b'\\'
}

// Writes a byte, with a backslash before a quote or a backslash.
fn put_escaped_byte(b: u8, out: &mut Writer)
    ensures { Writes (escaped_byte b) out.old out.new }
{
    if is_marked(b) {
        out.put(b'\\');
    }
    out.put(b);
}

// Writes a value's part.
fn put_escaped(s: &[u8], out: &mut Writer)
    ensures { Writes (escaped s.now) out.old out.new }
{
    // Read so that its bound is known, which an empty value needs.
    let _start = out.at;
    for b in s {
        put_escaped_byte(*b, out);
    }
}

// Writes a value as it stands, or quoted where it isn't dot-atom-text.
pub fn put_form(s: &[u8], out: &mut Writer)
    ensures { Writes (formed s.now) out.old out.new }
{
    if is_dot_atom_text(s) {
        out.put_all(s);
    } else {
        out.put(b'"');
        put_escaped(s, out);
        out.put(b'"');
    }
}

// Where the byte stands that the byte at i is, or escapes.
pub fn place_of(s: &[u8], i: usize) -> usize
    requires { i < length s.now }
    ensures { Placed s.now i result }
{
    if s[i] == b'\\' && i + 1 < s.len() {
        i + 1
    } else {
        i
    }
}

// Writes a part without its backslashes.
pub fn put_unescaped(s: &[u8], out: &mut Writer)
    ensures { Writes (unescaped s.now) out.old out.new }
{
    // Read so that its bound is known, which an empty part needs.
    let _start = out.at;
    // By places and not `for`: a step takes one byte or two.
    let mut i = 0;
    while i < s.len() {
        let j = place_of(s, i);
        out.put(s[j]);
        i = j + 1;
    }
}

// Whether a text is the part of a value.
fn is_part_of(v: &[u8], part: &[u8]) -> bool
    requires { length v.now ≤ most_value }
    ensures { result ≡ same (escaped v.now) part.now }
{
    let mut again = [0u8; MOST_PART];
    let mut w = Writer::new(&mut again);
    put_escaped(v, &mut w);
    let n = w.at;
    words::equal(bytes::part(&again, 0, n), part)
}

// Writes a value to the front of a buffer if it is the one of the part.
pub fn write_value(v: &[u8], part: &[u8], out: &mut [u8]) -> Result<usize, LineError>
    requires { length v.now ≤ most_value }
    ensures { Says (valued v.now part.now (length out.old)) result out.old out.new }
{
    if !words::every(v, Class::Printable) {
        return Err(LineError::NoLine);
    }
    if !is_part_of(v, part) {
        return Err(LineError::NoLine);
    }
    if out.len() < v.len() {
        return Err(LineError::NoRoom);
    }
    Writer::new(out).put_all(v);
    Ok(v.len())
}
