// The texts of addresses and numbers, written by a writer.
#![tactic(auto)]

ghost use Rattle.std.specs.Prelude.{ℕ, List, suc, ◌^◌, ◌<◌, ◌≤◌, ◌≡◌, length, get_or, map};
ghost use Rattle.text.specs.Lists.{join_by};
ghost use Rattle.text.specs.Writing.{Wrote, Writes};
ghost use Rattle.address_text.specs.Digits.{digit, numeral, in_decimal};
ghost use Rattle.address_text.specs.Forms.{nibbles, hex_groups, octet_texts, dotted, readable, family, reversed_name};
ghost use Rattle.address_text.specs.Rows.{Gives, Below};

use address::Address;
use text::writing::Writer;

// The digit of a number below 16, in lower case.
#[tactic(auto, using(text::proofs::Laws::Tests::ways), unfolding(crate::specs::Digits::digit))]
fn digit_of(n: u64) -> u8
    requires { n < 16 }
    ensures { result ≡ digit n }
{
    if n < 10 {
        b'0' + n as u8
    } else {
        b'a' - 10 + n as u8
    }
}

// A number in a base. The contract holds for every number f + 1 of digits that is enough.
fn put_numeral(v: u64, base: u64, out: &mut Writer)
    requires { (2 ≤ base) × (base ≤ 16) }
    ensures wrote { (f : ℕ) → v < base ^ suc f → Wrote (numeral f base v) out.old.out.now out.old.at out.new.out.now out.new.at }
    ensures same { out.new.out.ghost_name ≡ out.old.out.ghost_name }
{
    if v < base {
        out.put(digit_of(v));
    } else {
        put_numeral(v / base, base, out);
        out.put(digit_of(v % base));
    }
}

// A number in decimal.
pub fn put_decimal(v: u64, out: &mut Writer)
    ensures { Writes (in_decimal v) out.old out.new }
{
    put_numeral(v, 10, out);
}

// The numbers that a closure gives from 0 on, in a base, with a separator between them. The contract holds for every list of what the
// closure gives.
fn put_row<F: Fn(usize) -> u64>(n: usize, number: F, base: u64, separator: u8, out: &mut Writer)
    requires some { 0 < n }
    requires base_range { (2 ≤ base) × (base ≤ 16) }
    requires callable { (i : ℕ) → i < n → F.pre number i }
    ensures wrote { (f : ℕ) (xs : List ℕ) → n ≡ length xs → Gives (F.post number) xs → Below (base ^ suc f) xs → Wrote (join_by separator (map (numeral f base) xs)) out.old.out.now out.old.at out.new.out.now out.new.at }
    ensures same { out.new.out.ghost_name ≡ out.old.out.ghost_name }
{
    put_numeral(number(0), base, out);
    for i in 1..n {
        out.put(separator);
        put_numeral(number(i), base, out);
    }
}

// The half of an octet at i.
#[tactic(auto, using(crate::proofs::Laws::Rows::nibble_even, crate::proofs::Laws::Rows::nibble_odd))]
fn nibble(s: &[u8; 16], i: usize) -> u64
    requires { i < 32 }
    ensures { result ≡ get_or (nibbles s.now) i 0 }
{
    let o = u64::from(s[i / 2]);
    if i % 2 == 0 { o / 16 } else { o % 16 }
}

// The 16-bit group at i.
#[tactic(auto, using(crate::proofs::Laws::Rows::group_at))]
fn group(s: &[u8; 16], i: usize) -> u64
    requires { i < 8 }
    ensures { result ≡ get_or (hex_groups s.now) i 0 }
{
    256 * u64::from(s[2 * i]) + u64::from(s[2 * i + 1])
}

// The octets of an IPv4 address.
fn put_octets(s: &[u8; 4], out: &mut Writer)
    ensures { Writes (join_by 46 (octet_texts s.now)) out.old out.new }
{
    put_row(4, |i| u64::from(s[i]), 10, b'.', out);
}

// The macro letter i.
pub fn put_dotted(a: Address, out: &mut Writer)
    ensures { Writes (dotted a) out.old out.new }
{
    match a {
        Address::IPv4(v) => put_octets(&address::octets4(v), out),
        Address::IPv6(high, low) => {
            let s = address::octets16(high, low);
            put_row(32, |i| nibble(&s, i), 16, b'.', out);
        }
    }
}

// The macro letter c.
pub fn put_readable(a: Address, out: &mut Writer)
    ensures { Writes (readable a) out.old out.new }
{
    match a {
        Address::IPv4(v) => put_octets(&address::octets4(v), out),
        Address::IPv6(high, low) => {
            let s = address::octets16(high, low);
            put_row(8, |i| group(&s, i), 16, b':', out);
        }
    }
}

// The macro letter v.
#[tactic(auto, unfolding(crate::specs::Forms::family))]
pub fn put_family(a: Address, out: &mut Writer)
    ensures { Writes (family a) out.old out.new }
{
    match a {
        Address::IPv4(_) => out.put_all(b"in-addr"),
        Address::IPv6(_, _) => out.put_all(b"ip6"),
    }
}

// The name that a PTR question asks for an address.
pub fn put_reversed_name(a: Address, out: &mut Writer)
    ensures { Writes (reversed_name a) out.old out.new }
{
    match a {
        Address::IPv4(v) => {
            let s = address::octets4(v);
            put_row(4, |i| u64::from(s[3 - i]), 10, b'.', out);
            out.put_all(b".in-addr.arpa");
        }
        Address::IPv6(high, low) => {
            let s = address::octets16(high, low);
            put_row(32, |i| nibble(&s, 31 - i), 16, b'.', out);
            out.put_all(b".ip6.arpa");
        }
    }
}
