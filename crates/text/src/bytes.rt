// Bytes, their classes, and runs of a class.
ghost use Rattle.std.specs.Prelude.{◌≡◌, ℕ, Bool};
ghost use Rattle.text.specs.Bytes.{at, part, within, lower};
ghost use Rattle.text.specs.Runs.{is_in, Answers, run_end, trailing_start};
ghost use Rattle.text.specs.Sets.{byte_set, Holds, has_bit};

// A class of bytes.
#[derive(Clone, Copy)]
pub enum Class {
    Space,
    NotSpace,
    NotDot,
    NotColon,
    NotSlash,
    Upper,
    NotUpper,
    Alpha,
    Digit,
    LengthByte,
    Alphanumeric,
    HexDigit,
    Visible,
    Printable,
    LabelByte,
    TableLabelByte,
    NameByte,
    ToplabelByte,
    MacroLiteral,
    Delimiter,
}

// Bytes as a set: those from `first` to `last`, those from `from` to `to`, and those whose bit is set, below 64 in
// `low`, from 64 to 127 in `high`.
#[derive(Clone, Copy)]
pub struct ByteSet {
    pub first: u8,
    pub last: u8,
    pub from: u8,
    pub to: u8,
    pub low: u64,
    pub high: u64,
}

// The byte at i, or 0 past the end.
pub fn peek(s: &[u8], i: usize) -> u8
    ensures { result ≡ at s.now i }
{
    if i < s.len() { s[i] } else { 0 }
}

// The part from a place up to another, as far as the slice goes.
pub fn part(s: &[u8], from: usize, to: usize) -> &[u8]
    ensures { result.now ≡ part s.now from to }
{
    let end = to.min(s.len());
    if from < end { &s[from..end] } else { &[] }
}

// Whether b is one of the bytes from low to high.
pub fn is_within(b: u8, low: u8, high: u8) -> bool
    ensures { result ≡ within low high b }
{
    low <= b && b <= high
}

// Bitmaps of bytes below 64: bit n for byte n.
const DIGITS: u64 = 0x03ff000000000000;

const PLUS: u64 = 0x0000080000000000;

const COMMA: u64 = 0x0000100000000000;

const HYPHEN: u64 = 0x0000200000000000;

const DOT: u64 = 0x0000400000000000;

const SLASH: u64 = 0x0000800000000000;

const EQUALS: u64 = 0x2000000000000000;

// The delimiters but the dot.
const SIGNS: u64 = PLUS | COMMA | HYPHEN | SLASH | EQUALS;

// 33 to 63, but the dot.
const TABLE_LABEL_LOW: u64 = 0xfffffffe00000000 - DOT;

// Bitmaps of bytes from 64 to 127: bit n for byte 64 + n.
const UPPER: u64 = 0x0000000007fffffe;

const UNDERSCORE: u64 = 0x0000000080000000;

// A to F, a to f.
const HEX_LETTERS: u64 = 0x0000007e0000007e;

// 64 to 126, but A to Z.
const TABLE_LABEL_HIGH: u64 = 0x7fffffffffffffff - UPPER;

// The set of a class: two ranges, or one of its frequent bytes, which is tested first, and bitmaps.
fn set_of(class: Class) -> ByteSet
    ensures { Holds class result }
{
    match class {
        Class::Space => ranges(32, 32, 32, 32),
        Class::NotSpace => ranges(0, 31, 33, 255),
        Class::NotDot => ranges(0, 45, 47, 255),
        Class::NotColon => ranges(0, 57, 59, 255),
        Class::NotSlash => ranges(0, 46, 48, 255),
        Class::Upper => ranges(65, 90, 65, 90),
        Class::NotUpper => ranges(0, 64, 91, 255),
        Class::Alpha => ranges(65, 90, 97, 122),
        Class::Digit => ranges(48, 57, 48, 57),
        Class::LengthByte => ranges(47, 57, 47, 57),
        Class::Alphanumeric => letters_and(DIGITS, UPPER),
        Class::HexDigit => byte_set(48, 57, 48, 57, 0, HEX_LETTERS),
        Class::Visible => ranges(33, 126, 33, 126),
        Class::Printable => ranges(32, 126, 32, 126),
        Class::LabelByte => ranges(33, 45, 47, 126),
        Class::TableLabelByte => letters_and(TABLE_LABEL_LOW, TABLE_LABEL_HIGH),
        Class::NameByte => letters_and(DIGITS | HYPHEN | DOT, UPPER | UNDERSCORE),
        Class::ToplabelByte => letters_and(DIGITS | HYPHEN, UPPER),
        Class::MacroLiteral => ranges(33, 36, 38, 126),
        Class::Delimiter => byte_set(46, 46, 46, 46, SIGNS, UNDERSCORE),
    }
}

// The bytes of two ranges.
fn ranges(first: u8, last: u8, from: u8, to: u8) -> ByteSet
    ensures { result ≡ byte_set first last from to 0 0 }
{
    byte_set(first, last, from, to, 0, 0)
}

// a to z, and the bytes of two bitmaps.
fn letters_and(low: u64, high: u64) -> ByteSet
    ensures { result ≡ byte_set 97 122 97 122 low high }
{
    byte_set(97, 122, 97, 122, low, high)
}

fn byte_set(first: u8, last: u8, from: u8, to: u8, low: u64, high: u64) -> ByteSet
    ensures { result ≡ byte_set first last from to low high }
{
    ByteSet {
        first,
        last,
        from,
        to,
        low,
        high,
    }
}

// Whether a byte's bit is set.
fn has_bit(low: u64, high: u64, b: u8) -> bool
    ensures { result ≡ has_bit low high b }
{
    match b {
        0..64 => (low >> b) % 2 == 1,
        64..128 => (high >> (b - 64)) % 2 == 1,
        _ => false,
    }
}

// Whether b is of the class.
pub fn is_in(class: Class, b: u8) -> bool
    ensures { result ≡ is_in class b }
{
    let s = set_of(class);
    is_within(b, s.first, s.last) || is_within(b, s.from, s.to) || has_bit(s.low, s.high, b)
}

// The end of the longest run of bytes that pass a test, from i on.
pub fn run_end_by<F: Fn(u8) -> bool>(s: &[u8], i: usize, test: F) -> usize
    requires { F.IsAlwaysCallable test }
    ensures { (p : ℕ → Bool) → Answers (F.post test) p → result ≡ run_end p s.now i }
{
    for j in i..s.len() {
        if !test(s[j]) {
            return j;
        }
    }
    i.max(s.len())
}

// The end of the longest run of a class from i on.
pub fn run_end(s: &[u8], i: usize, class: Class) -> usize
    ensures { result ≡ run_end (is_in class) s.now i }
{
    run_end_by(s, i, |b| is_in(class, b))
}

// A to Z lowered, any other byte as it is.
pub fn to_lower(b: u8) -> u8
    ensures { result ≡ lower b }
{
    b.to_ascii_lowercase()
}

// The start of the longest run of a class that ends where the slice ends.
pub fn trailing_start(s: &[u8], class: Class) -> usize
    ensures { result ≡ trailing_start (is_in class) s.now }
{
    for i in (0..s.len()).rev() {
        if !is_in(class, s[i]) {
            return i + 1;
        }
    }
    0
}
