// An address from its digits; whether they are one is seen when it is written again.
ghost use Rattle.std.specs.Prelude.{◌≤◌, ◌<◌, ◌≡◌};
ghost use Rattle.received.specs.Reader.{Digit, octet_on, high_on, low_on, push_byte, total, address_of};

use address::Address;
use text::words;

// What stands before a byte: an address's two halves, and the number since the last dot or colon.
#[derive(Clone, Copy)]
pub struct Sum {
    pub high: u64,
    pub low: u64,
    pub group: u64,
}

// The value of a digit, in hex too.
fn digit_value(b: u8) -> u64
    ensures { Digit b result }
{
    if b < 58 {
        u64::from(b.saturating_sub(b'0'))
    } else {
        u64::from(b.saturating_sub(b'a' - 10))
    }
}

// The IPv4 address with one octet more.
fn octet_on(x: Sum) -> u64
    ensures { (result ≡ octet_on x) × (result < 4294967296) }
{
    (x.low % 16777216) * 256 + x.group % 256
}

// The high half of the IPv6 address with one group more.
fn high_on(x: Sum) -> u64
    ensures { result ≡ high_on x }
{
    (x.high % 281474976710656) * 65536 + (x.low / 281474976710656) % 65536
}

// Its low half.
fn low_on(x: Sum) -> u64
    ensures { result ≡ low_on x }
{
    (x.low % 281474976710656) * 65536 + x.group % 65536
}

// What stands before the next byte: a dot or a colon ends a number, any other byte is a digit of it.
fn push_byte(base: u64, x: Sum, b: u8) -> Sum
    requires { base ≤ 16 }
    ensures { result ≡ push_byte base x b }
{
    match b {
        b'.' => Sum {
            low: octet_on(x),
            group: 0,
            ..x
        },
        b':' => Sum {
            high: high_on(x),
            low: low_on(x),
            group: 0,
        },
        _ => Sum {
            group: (base * (x.group % 65536) + digit_value(b)) % 65536,
            ..x
        },
    }
}

// The same of all bytes.
fn sum_of(base: u64, s: &[u8]) -> Sum
    requires { base ≤ 16 }
    ensures { result ≡ total base s.now }
{
    let mut x = Sum {
        high: 0,
        low: 0,
        group: 0,
    };
    for b in s {
        x = push_byte(base, x, *b);
    }
    x
}

// The address of these digits: IPv6 if there is a colon.
pub fn address_of(s: &[u8]) -> Address
    ensures { result ≡ address_of s.now }
{
    if words::contains(s, b':') {
        let x = sum_of(16, s);
        Address::IPv6(high_on(x), low_on(x))
    } else {
        Address::IPv4(octet_on(sum_of(10, s)) as u32)
    }
}
