// The texts of IPv6 networks, and of addresses of either family.
ghost use Rattle.std.specs.Prelude.{◌+◌, ◌≤◌, ◌≡◌, true, false, [], ◌∷◌, leb, length};
ghost use Rattle.text.specs.Bytes.{is_hex_digit};
ghost use Rattle.text.specs.Lists.{all};
ghost use Rattle.text.specs.Writing.{Writes};
ghost use Rattle.networks.specs.Grammar.{Network6, hex_value, hex_from};
ghost use Rattle.networks.specs.Answers.{NetworkAnswer, AddressText};
ghost use Rattle.networks.specs.Reader6.{octet_pairs, first_colon, is_double_colon, double_colon, read_h16, last_part, tail_of, read_row, read_side, RowWritten, full_of, short_of, read_ip6, read_address};
ghost use Rattle.networks.specs.Reader.{read_ip4};

use address::Address;
use text::bytes::Class;
use text::writing::Writer;
use text::{bytes, words};

// The value of a hex digit.
fn hex_value(b: u8) -> u16
    ensures { result ≡ hex_value b }
{
    if bytes::is_within(b, 48, 57) {
        return (b - 48) as u16;
    }
    let letter = bytes::to_lower(b);
    if letter < 87 {
        return 0;
    }
    (letter - 87) as u16
}

// The number that at most 4 hex digits write.
fn hex_number(w: &[u8]) -> u16
    requires { (length w.now ≤ 4) × (all is_hex_digit w.now ≡ true) }
    ensures { result ≡ hex_from 0 w.now }
{
    let mut v: u16 = 0;
    for b in w {
        v = 16 * v + hex_value(*b);
    }
    v
}

// The whole text as a group: 1 to 4 hex digits.
fn read_h16(w: &[u8]) -> Option<u16>
    ensures { result ≡ read_h16 w.now }
{
    if 1 <= w.len() && w.len() <= 4 && words::every(w, Class::HexDigit) {
        return Some(hex_number(w));
    }
    None
}

// Writes the two octets of a group.
fn put_h16(g: u16, out: &mut Writer)
    ensures { Writes (octet_pairs (g ∷ [])) out.old out.new }
{
    out.put((g / 256) as u8);
    out.put((g % 256) as u8);
}

// The place of the first colon, or the length.
fn first_colon(s: &[u8]) -> usize
    ensures { result ≡ first_colon s.now }
{
    bytes::run_end(s, 0, Class::NotColon)
}

// Whether "::" stands at i.
fn is_double_colon(s: &[u8], i: usize) -> bool
    ensures { result ≡ is_double_colon s.now i }
{
    bytes::peek(s, i) == 58 && bytes::peek(s, i + 1) == 58
}

// The place of the first "::", or the length.
fn double_colon(s: &[u8]) -> usize
    ensures { result ≡ double_colon s.now }
{
    for i in 0..s.len() {
        if is_double_colon(s, i) {
            return i;
        }
    }
    s.len()
}

// Writes the octets of an IPv4 tail, if the text is one.
fn put_tail(s: &[u8], out: &mut Writer) -> bool
    ensures row { RowWritten (tail_of (read_ip4 s.now)) out.old out.new result }
    ensures same { out.new.out.ghost_name ≡ out.old.out.ghost_name }
{
    match crate::read_ip4(s) {
        Some(Address::IPv4(v)) => {
            put_h16((v / 65536) as u16, out);
            put_h16((v % 65536) as u16, out);
            true
        }
        Some(Address::IPv6(_, _)) => false,
        None => false,
    }
}

// Writes the octets of the last part of a row: a group, or a tail where one may stand.
fn put_last(s: &[u8], tail: bool, out: &mut Writer) -> bool
    ensures row { RowWritten (last_part tail s.now) out.old out.new result }
    ensures same { out.new.out.ghost_name ≡ out.old.out.ghost_name }
{
    let Some(g) = read_h16(s) else {
        return tail && put_tail(s, out);
    };
    put_h16(g, out);
    true
}

// Writes the octets of groups joined by ":", of which the last may be a tail where one may stand.
fn put_row(s: &[u8], tail: bool, out: &mut Writer) -> bool
    ensures row { RowWritten (read_row tail s.now) out.old out.new result }
    ensures same { out.new.out.ghost_name ≡ out.old.out.ghost_name }
{
    let k = first_colon(s);
    if s.len() <= k {
        return put_last(s, tail, out);
    }
    let Some(g) = read_h16(&s[..k]) else {
        return false;
    };
    put_h16(g, out);
    let rest = k + 1;
    put_row(&s[rest..], tail, out)
}

// The same of what stands at a side of "::", which may be nothing.
fn put_side(s: &[u8], tail: bool, out: &mut Writer) -> bool
    ensures row { RowWritten (read_side tail s.now) out.old out.new result }
    ensures same { out.new.out.ghost_name ≡ out.old.out.ghost_name }
{
    // Read so that its bound is known, which an empty side needs.
    let _start = out.at;
    if s.len() == 0 {
        return true;
    }
    put_row(s, tail, out)
}

// A text without "::": eight groups.
fn read_full(s: &[u8]) -> Option<Address>
    ensures { result ≡ full_of (read_row true s.now) }
{
    let mut octets = [0u8; 16];
    let mut w = Writer::new(&mut octets);
    let is_row = put_row(s, true, &mut w);
    if is_row && w.at == 16 {
        return address::from_octets(&octets);
    }
    None
}

// Whether n and m octets of an address's 16 leave at least a group.
fn leave_group(n: usize, m: usize) -> bool
    ensures { result ≡ leb (n + m) 14 }
{
    n <= 14 && m <= 14 - n
}

// What stands before and after "::", which is at least one group of zeros.
fn read_short(before: &[u8], after: &[u8]) -> Option<Address>
    ensures { result ≡ short_of (read_side false before.now) (read_side true after.now) }
{
    let mut octets = [0u8; 16];
    let mut left = Writer::new(&mut octets);
    if !put_side(before, false, &mut left) {
        return None;
    }
    let n = left.at;
    let mut behind = [0u8; 16];
    let mut right = Writer::new(&mut behind);
    if !put_side(after, true, &mut right) {
        return None;
    }
    let m = right.at;
    if leave_group(n, m) {
        let mut end = Writer {
            out: &mut octets,
            at: 16 - m,
        };
        end.put_all(&behind[..m]);
        return address::from_octets(&octets);
    }
    None
}

// The whole text as an ip6-network.
pub fn read_ip6(s: &[u8]) -> Option<Address>
    ensures value { result ≡ read_ip6 s.now }
    ensures network_answer { NetworkAnswer (Network6 s.now) result }
{
    let k = double_colon(s);
    if k < s.len() {
        let rest = k + 2;
        return read_short(&s[..k], &s[rest..]);
    }
    read_full(s)
}

// An address written as for ip4 or ip6, the whole text.
pub fn read_address(s: &[u8]) -> Option<Address>
    ensures value { result ≡ read_address s.now }
    ensures network_answer { NetworkAnswer (AddressText s.now) result }
{
    match crate::read_ip4(s) {
        Some(a) => Some(a),
        None => read_ip6(s),
    }
}
