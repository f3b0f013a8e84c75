// What the program lint_record prints, written into a lent buffer: the breaches of the house rules, each with the record and a caret under its place; `ok`;
// or a refusal.
#![tactic(auto)]

ghost use Rattle.std.specs.Prelude.{◌≤◌, ◌≡◌, ◌++◌, length, replicate};
ghost use Rattle.text.specs.Texts.{bytes};
ghost use Rattle.text.specs.Writing.{Writes};
ghost use Rattle.publishing.specs.Listing.{entry};
ghost use Rattle.breach_listing.specs.Lines.{rule_text, breach_text, Printed, room, head_text, caret_text};
ghost use Rattle.breach_listing.specs.Writing.{PutsBreaches, PutsList, Lints};

use publishing::MOST_LIST;
use record_listing::{put_refusal, without_newline};
use text::fields::{after_fields, field};
use text::writing::Writer;

// How much of an input decides what is printed: a name of 255 bytes, a record of 4,096, their newlines, and one byte more.
pub const READ: usize = 4354;

// What is printed never has more bytes.
pub const ROOM: usize = 2200000;

// A rule in a few words.
fn rule_text(rule: u8) -> &'static [u8]
    ensures { result.now ≡ rule_text rule }
{
    match rule {
        1 => b"no ptr",
        2 => b"no p macro",
        3 => b"an all or a redirect, and no all after the first",
        4 => b"no redirect beside an all",
        5 => b"no mechanism after the first all",
        6 => b"nothing but redirect and exp after the first of these",
        7 => b"no +all, written or implied",
        8 => b"no length below /8 for IPv4 or /19 for IPv6",
        9 => b"no network equal to an earlier one",
        _ => b"name and text together under 450 bytes",
    }
}

// So many spaces.
fn put_spaces(n: usize, out: &mut Writer)
    ensures { Writes (replicate n 32) out.old out.new }
{
    // Read so that its bound is known, which no space needs.
    let _start = out.at;
    for _ in 0..n {
        out.put(b' ');
    }
}

// A breach's first line: the rule's number, the place, and the rule in a few words.
fn put_head(rule: u8, place: usize, out: &mut Writer)
    ensures { Writes (head_text (entry rule place)) out.old out.new }
{
    address_text::put_decimal(rule as u64, out);
    out.put_all(b" at ");
    address_text::put_decimal(place as u64, out);
    out.put_all(b": ");
    out.put_all(rule_text(rule));
    out.put(b'\n');
}

// The record, which is its second line.
fn put_record(s: &[u8], out: &mut Writer)
    ensures { Writes (s.now ++ bytes "\n") out.old out.new }
{
    out.put_all(s);
    out.put(b'\n');
}

// A caret under a place, which is the third.
fn put_caret(place: usize, out: &mut Writer)
    ensures { Writes (caret_text place) out.old out.new }
{
    put_spaces(place, out);
    out.put_all(b"^\n");
}

// A breach.
fn put_breach(s: &[u8], rule: u8, place: usize, out: &mut Writer)
    ensures { Writes (breach_text s.now (entry rule place)) out.old out.new }
{
    put_head(rule, place, out);
    put_record(s, out);
    put_caret(place, out);
}

// The breaches of a list, three bytes each: the rule, then the place, its low byte first.
fn put_breaches(s: &[u8], list: &[u8], out: &mut Writer)
    ensures { PutsBreaches s.now list.now out.old out.new }
{
    // Read so that its bound is known, which a list without a breach needs.
    let _start = out.at;
    for breach in list.chunks_exact(3) {
        let place = u16::from_le_bytes([breach[1], breach[2]]);
        put_breach(s, breach[0], place as usize, out);
    }
}

// The same, or `ok` where there is none.
fn put_list(s: &[u8], list: &[u8], out: &mut Writer)
    ensures { PutsList s.now list.now out.old out.new }
{
    if list.is_empty() {
        out.put_all(b"ok\n");
    } else {
        put_breaches(s, list, out);
    }
}

// Holds a record with its domain name against the house rules, and writes what is printed of them.
fn lint(domain: &[u8], s: &[u8], out: &mut Writer)
    ensures { Lints domain.now s.now out.old out.new }
{
    let mut list = [0u8; MOST_LIST];
    match publishing::house_rules(domain, s, &mut list) {
        Ok(n) => put_list(s, &list[..3 * n], out),
        Err(e) => put_refusal(e.number(), e.place(), out),
    }
}

// Room for what is printed of an input.
pub fn buffer() -> [u8; ROOM]
    ensures { room ≡ length result }
{
    [0; ROOM]
}

// Writes what the program prints of an input: the domain name on the first line, then the record.
pub fn answer_input(input: &[u8], out: &mut [u8]) -> usize
    requires { room ≤ length out.old }
    ensures { Printed input.now out.old out.new result }
{
    let mut writer = Writer::new(out);
    lint(
        field(input, b'\n', 0),
        without_newline(after_fields(input, b'\n', 1)),
        &mut writer,
    );
    writer.at
}
