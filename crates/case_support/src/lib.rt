// What the programs that run cases share: lines of the input, their words, what the words write, answers printed, and which bytes a call kept.
#![tactic(auto)]

ghost use Rattle.std.specs.Prelude.{◌<◌, min, ◌≡◌, IfOk, OnErr, length, take};
ghost use Rattle.text.specs.Writing.{overwritten};
ghost use Rattle.text.specs.Fields.{field};
ghost use Rattle.case_support.specs.Lines.{LineRead};
ghost use Rattle.case_support.specs.Words.{hex_value, hex_byte, hex_bytes, number_of, address_of};

use address::Address;
use std::io;
use std::io::Read;
use text::decimal;

// Reads a line of an input into a lent buffer, without its newline. A line that is longer than the buffer is cut there, and the rest is read
// as a line of its own. A failed read is the error, and leaves the buffer its length.
pub fn read_line(input: &mut impl Read, line: &mut [u8]) -> io::Result<Option<usize>>
    ensures read { IfOk result (λ r. LineRead r line.old line.new) }
    ensures err { OnErr result (length line.new ≡ length line.old) }
{
    let mut byte = [0u8; 1];
    for i in 0..line.len() {
        let got = input.read(&mut byte)?;
        if got == 0 {
            return Ok(if i == 0 { None } else { Some(i) });
        }
        if byte[0] == b'\n' {
            return Ok(Some(i));
        }
        line[i] = byte[0];
    }
    Ok(Some(line.len()))
}

// The k-th word of a line, counted from 0; words are parted by one space.
pub fn word(line: &[u8], k: usize) -> &[u8]
    ensures { result.now ≡ field 32 k line.now }
{
    text::fields::field(line, 32, k)
}

// The value of a hex digit, and 0 for any other byte.
#[tactic(auto, using(std::proofs::lemmas::Bool::Decides::nat_tests), unfolding(crate::specs::Words::hex_value, text::specs::Bytes::is_digit, text::specs::Bytes::within))]
fn hex_value(b: u8) -> u8
    ensures value { result ≡ hex_value b }
    ensures upper_bound { result < 16 }
{
    match b {
        b'0'..=b'9' => b - b'0',
        b'a'..=b'f' => b - b'a' + 10,
        _ => 0,
    }
}

// The byte that two hex digits write.
fn hex_byte(high: u8, low: u8) -> u8
    ensures { result ≡ hex_byte high low }
{
    16 * hex_value(high) + hex_value(low)
}

// Reads bytes written in hex, `-` for none, into a lent buffer, as many as fit; answers how many.
pub fn unhex(text: &[u8], out: &mut [u8]) -> usize
    ensures value { result ≡ min (length (hex_bytes text.now)) (length out.old) }
    ensures out_after { out.new ≡ overwritten (hex_bytes text.now) out.old }
{
    let n = out.len().min(text.len() / 2);
    for i in 0..n {
        out[i] = hex_byte(text[2 * i], text[2 * i + 1]);
    }
    n
}

// The same, but answers the bytes.
pub fn unhexed<'a>(text: &[u8], out: &'a mut [u8]) -> &'a [u8]
    ensures { result.now ≡ take (length out.old) (hex_bytes text.now) }
{
    let n = unhex(text, out);
    &out[..n]
}

// The number that a word writes, or 0.
pub fn number_of(word: &[u8]) -> u64
    ensures { result ≡ number_of word.now }
{
    decimal::read_decimal(word, u64::MAX).unwrap_or(0)
}

// The address whose octets a word writes, or 0.0.0.0.
pub fn address_of(word: &[u8]) -> Address
    ensures { result ≡ address_of word.now }
{
    address::from_octets(unhexed(word, &mut [0; 16])).unwrap_or(Address::IPv4(0))
}

// Prints bytes in hex, `-` for none.
pub fn print_bytes(rt: &impl Print, s: &[u8]) -> io::Result<()> {
    if s.is_empty() {
        return rt.write_all(b"-");
    }
    for b in s {
        print!(rt; "{b:02x}")?;
    }
    Ok(())
}

// Prints a text and the line's end.
pub fn print_line(rt: &impl Print, s: &[u8]) -> io::Result<()> {
    rt.write_all(s)?;
    rt.write_all(b"\n")
}

// Prints a number and the line's end.
pub fn print_number_line(rt: &impl Print, n: usize) -> io::Result<()> {
    rt.print(n)?;
    rt.write_all(b"\n")
}

// Prints a test's answer.
pub fn print_test(rt: &impl Print, yes: bool) -> io::Result<()> {
    print_line(rt, if yes { b"1" } else { b"0" })
}

// Prints an address's octets and the line's end.
pub fn print_address(rt: &impl Print, a: Address) -> io::Result<()> {
    match a {
        Address::IPv4(v) => print_bytes(rt, &address::octets4(v))?,
        Address::IPv6(high, low) => print_bytes(rt, &address::octets16(high, low))?,
    }
    print_line(rt, b"")
}

// The byte that a buffer has at a place before a call.
fn pattern(i: usize) -> u8 {
    (i % 251) as u8
}

// Fills a buffer before a call.
pub fn fill(out: &mut [u8]) {
    for i in 0..out.len() {
        out[i] = pattern(i);
    }
}

// Whether a buffer is as it was filled from a place on.
pub fn is_kept(out: &[u8], from: usize) -> bool {
    for i in from..out.len() {
        if out[i] != pattern(i) {
            return false;
        }
    }
    true
}
