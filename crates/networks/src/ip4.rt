// The texts of IPv4 networks.
ghost use Rattle.std.specs.Prelude.{◌≡◌, [], ◌∷◌};
ghost use Rattle.address.specs.Octets.{value_of};
ghost use Rattle.networks.specs.Grammar.{Network4};
ghost use Rattle.networks.specs.Answers.{NetworkAnswer};
ghost use Rattle.networks.specs.Reader.{octet_at, dot_octet_at, front_at, read_ip4};

use crate::Front;
use address::Address;
use text::bytes;

// The longest run of digits from a place on as a qnum, with the place after it.
// The loop ends where no digit stands, and reads each digit once.
fn read_octet(s: &[u8], at: usize) -> Option<(u8, usize)>
    ensures { result ≡ octet_at s.now at }
{
    let mut v: u32 = 0;
    let mut i = at;
    while i < s.len() {
        let b = s[i];
        if bytes::is_within(b, 48, 57) {
            v = 10 * v + (b - 48) as u32;
            if 255 < v {
                return None;
            }
            i += 1;
        } else {
            break;
        }
    }
    if i == at {
        return None;
    }
    if 1 < i - at {
        if s[at] == 48 {
            return None;
        }
    }
    Some((v as u8, i))
}

// A dot and a qnum.
fn read_dot_octet(s: &[u8], at: usize) -> Option<(u8, usize)>
    ensures { result ≡ dot_octet_at s.now at }
{
    if bytes::peek(s, at) == 46 {
        return read_octet(s, at + 1);
    }
    None
}

// The number that four octets write.
fn value_of(a: u8, b: u8, c: u8, d: u8) -> u32
    ensures { result ≡ value_of (a ∷ b ∷ c ∷ d ∷ []) }
{
    ((a as u32 * 256 + b as u32) * 256 + c as u32) * 256 + d as u32
}

// Four octets joined by dots, from a place on.
pub fn read_front(s: &[u8], at: usize) -> Option<Front>
    ensures { result ≡ front_at s.now at }
{
    let (a, i) = read_octet(s, at)?;
    let (b, j) = read_dot_octet(s, i)?;
    let (c, k) = read_dot_octet(s, j)?;
    let (d, end) = read_dot_octet(s, k)?;
    Some(Front {
        value: value_of(a, b, c, d),
        end,
    })
}

// The whole text as an ip4-network.
pub fn read_ip4(s: &[u8]) -> Option<Address>
    ensures value { result ≡ read_ip4 s.now }
    ensures network_answer { NetworkAnswer (Network4 s.now) result }
{
    let Front { value, end } = read_front(s, 0)?;
    if end == s.len() {
        return Some(Address::IPv4(value));
    }
    None
}
