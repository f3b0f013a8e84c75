// The texts of prefix lengths.
ghost use Rattle.std.specs.Prelude.{◌≡◌};
ghost use Rattle.networks.specs.Grammar.{Length4, Length6, DualCidrLength};
ghost use Rattle.networks.specs.Answers.{LengthAnswer, DualAnswer};
ghost use Rattle.networks.specs.Reader.{slash_number, read_length, read_length4, read_length6, front_end, second_length, read_dual};

use crate::Lengths;
use text::bytes::Class;
use text::{bytes, decimal};

// A slash and a number up to a limit, the whole text.
fn read_slash_number(s: &[u8], limit: u8) -> Option<u8>
    ensures { result ≡ slash_number limit s.now }
{
    if bytes::peek(s, 0) == 47 {
        let n = decimal::read_number(bytes::part(s, 1, s.len()), limit as u64)?;
        return Some(n as u8);
    }
    None
}

// The whole text as a length up to a limit, which is meant where there is none.
fn read_length(s: &[u8], limit: u8) -> Option<u8>
    ensures { result ≡ read_length limit s.now }
{
    if s.len() == 0 {
        return Some(limit);
    }
    read_slash_number(s, limit)
}

// The whole text as [ ip4-cidr-length ].
pub fn read_length4(s: &[u8]) -> Option<u8>
    ensures value { result ≡ read_length4 s.now }
    ensures length_answer { LengthAnswer (Length4 s.now) result }
{
    read_length(s, 32)
}

// The whole text as [ ip6-cidr-length ].
pub fn read_length6(s: &[u8]) -> Option<u8>
    ensures value { result ≡ read_length6 s.now }
    ensures length_answer { LengthAnswer (Length6 s.now) result }
{
    read_length(s, 128)
}

// Where an ip4-cidr-length at the front ends; 0 where none stands there.
fn front_end(s: &[u8]) -> usize
    ensures { result ≡ front_end s.now }
{
    if bytes::is_in(Class::Digit, bytes::peek(s, 1)) {
        return bytes::run_end(s, 1, Class::Digit);
    }
    0
}

// [ "/" ip6-cidr-length ] from a place up to the end.
fn read_second(s: &[u8], at: usize) -> Option<u8>
    ensures { result ≡ second_length s.now at }
{
    if at == s.len() {
        return Some(128);
    }
    if bytes::peek(s, at) == 47 {
        return read_slash_number(bytes::part(s, at + 1, s.len()), 128);
    }
    None
}

// The whole text as dual-cidr-length.
pub fn read_dual(s: &[u8]) -> Option<Lengths>
    ensures value { result ≡ read_dual s.now }
    ensures dual_answer { DualAnswer (DualCidrLength s.now) result }
{
    let end = front_end(s);
    let four = read_length4(bytes::part(s, 0, end))?;
    let six = read_second(s, end)?;
    Some(Lengths { four, six })
}
