// Numbers in decimal.
ghost use Rattle.std.specs.Prelude.{◌≡◌};
ghost use Rattle.text.specs.Decimal.{pushed, read_decimal, read_number};

use crate::bytes;

// The number whose digits are those of v and then b, if b is a digit and the value is up to the limit.
fn push_digit(v: u64, b: u8, limit: u64) -> Option<u64>
    ensures { result ≡ pushed limit v b }
{
    if !bytes::is_within(b, b'0', b'9') {
        return None;
    }
    let next = v.checked_mul(10)?.checked_add((b - b'0') as u64)?;
    (next <= limit).then_some(next)
}

// The whole text as a number in decimal with a value up to the limit; leading zeros are allowed.
pub fn read_decimal(s: &[u8], limit: u64) -> Option<u64>
    ensures { result ≡ read_decimal limit s.now }
{
    if s.is_empty() {
        return None;
    }
    let mut v: u64 = 0;
    for b in s {
        v = push_digit(v, *b, limit)?;
    }
    Some(v)
}

// The same without a leading zero.
pub fn read_number(s: &[u8], limit: u64) -> Option<u64>
    ensures { result ≡ read_number limit s.now }
{
    if 1 < s.len() && s[0] == b'0' {
        return None;
    }
    read_decimal(s, limit)
}
