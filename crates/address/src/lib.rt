// Addresses and prefix lengths.
#![tactic(auto)]

ghost use Rattle.std.specs.Prelude.{◌*◌, ◌≤◌, ◌≡◌, true, ◌++◌, ◌↔◌, length, take, leb, eqb};
ghost use Rattle.text.specs.Lists.{same};
ghost use Rattle.address.specs.Octets.{octets_of, octets, from_octets, client_octets, as_client};
ghost use Rattle.address.specs.Matching.{agree, matches_at, Matches, high_bits};
ghost use Rattle.address.specs.Clearing.{cleared_low, cleared};

use text::words;

// An address of either family, by its number; an IPv6 address in two halves, high-order first.
#[derive(Clone, Copy, PartialEq, Eq)]
pub enum Address {
    IPv4(u32),
    IPv6(u64, u64),
}

// The octets of an IPv4 address.
pub fn octets4(v: u32) -> [u8; 4]
    ensures { result ≡ octets_of 4 v }
{
    v.to_be_bytes()
}

// The octets of an IPv6 address, from its halves.
pub fn octets16(high: u64, low: u64) -> [u8; 16]
    ensures { result ≡ octets_of 8 high ++ octets_of 8 low }
{
    let mut octets = [0; 16];
    octets[..8].copy_from_slice(&high.to_be_bytes());
    octets[8..].copy_from_slice(&low.to_be_bytes());
    octets
}

// The address of 4 or 16 octets, high-order first.
pub fn from_octets(s: &[u8]) -> Option<Address>
    ensures { result ≡ from_octets s.now }
{
    if let Some(v) = s.as_array() {
        return Some(Address::IPv4(u32::from_be_bytes(*v)));
    }
    let (high, rest) = s.split_first_chunk()?;
    let low = rest.as_array()?;
    Some(Address::IPv6(u64::from_be_bytes(*high), u64::from_be_bytes(*low)))
}

// An IPv4-mapped IPv6 client counts as IPv4; every other address is itself.
pub fn as_client(a: Address) -> Address
    ensures value { result ≡ as_client a }
    ensures octets_of_result { octets result ≡ client_octets (octets a) }
{
    match a {
        Address::IPv6(0, low) if low / 4294967296 == 65535 => {
            Address::IPv4((low % 4294967296) as u32)
        }
        _ => a,
    }
}

// Whether n bits are at most the width of s.
fn is_within_width(s: &[u8], n: usize) -> bool
    ensures { result ≡ leb n (8 * length s.now) }
{
    if n % 8 == 0 {
        return n / 8 <= s.len();
    }
    n / 8 < s.len()
}

// Whether the first `count` bytes of a and b are the same.
fn same_whole_bytes(a: &[u8], b: &[u8], count: usize) -> bool
    requires count_in_bounds { count ≤ length a.now }
    requires count_in_bounds_2 { count ≤ length b.now }
    ensures { result ≡ same (take count a.now) (take count b.now) }
{
    words::equal(&a[..count], &b[..count])
}

// Whether the `count` high-order bits of x and y are the same. The other 1 to 7 bits are shifted out.
fn same_high_bits(x: u8, y: u8, count: usize) -> bool
    requires le_count { 1 ≤ count }
    requires count_bound { count ≤ 7 }
    ensures { result ≡ eqb (high_bits count x) (high_bits count y) }
{
    let others = 8 - count;
    (x >> others) == (y >> others)
}

// Whether the first n bits of a and b agree: n is at most the width, its whole bytes are the same, and so are any bits left over in the next byte. 19 bits are 2 whole bytes and the 3 high-order bits of the third.
fn agrees(a: &[u8], b: &[u8], n: usize) -> bool
    ensures { result ≡ agree a.now b.now n }
{
    if !is_within_width(a, n) {
        return false;
    }
    if !is_within_width(b, n) {
        return false;
    }
    let whole = n / 8;
    if !same_whole_bytes(a, b, whole) {
        return false;
    }
    let left_over = n % 8;
    if left_over == 0 {
        return true;
    }
    same_high_bits(a[whole], b[whole], left_over)
}

// Whether a client matches a network at a prefix length.
pub fn matches(client: Address, network: Address, length: usize) -> bool
    ensures value { result ≡ matches_at client network length }
    ensures rule { (result ≡ true) ↔ Matches client network length }
{
    match client {
        Address::IPv4(v) => match network {
            Address::IPv4(w) => agrees(&octets4(v), &octets4(w), length),
            Address::IPv6(_, _) => false,
        },
        Address::IPv6(h, l) => match network {
            Address::IPv6(i, m) => agrees(&octets16(h, l), &octets16(i, m), length),
            Address::IPv4(_) => false,
        },
    }
}

// A number with its n low-order bits cleared. All 64 and more are answered apart: a shift by the width is an error.
fn clear_low(v: u64, n: usize) -> u64
    ensures { result ≡ cleared_low n v }
{
    if n < 64 { (v >> n) << n } else { 0 }
}

// An address with the bits below a prefix length cleared.
#[tactic(auto, using(crate::proofs::Laws::Clearing::cleared_fits))]
pub fn cleared(a: Address, length: usize) -> Address
    ensures { result ≡ cleared a length }
{
    match a {
        Address::IPv4(v) => {
            Address::IPv4(clear_low(u64::from(v), 32usize.saturating_sub(length)) as u32)
        }
        Address::IPv6(high, low) => Address::IPv6(
            clear_low(high, 64usize.saturating_sub(length)),
            clear_low(low, 64usize.saturating_sub(length.saturating_sub(64))),
        ),
    }
}
