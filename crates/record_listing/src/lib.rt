// What the record printer prints, written into a lent buffer: a header and a line for each term, or a refusal; and the answers alone.
#![tactic(auto)]

ghost use Rattle.std.specs.Prelude.{◌≤◌, length, List, ◌++◌, ◌≡◌};
ghost use Rattle.text.specs.Bytes.{part};
ghost use Rattle.text.specs.Texts.{bytes};
ghost use Rattle.text.specs.Writing.{Wrote, Writes};
ghost use Rattle.address_text.specs.Digits.{in_decimal};
ghost use Rattle.records.specs.Readings.{Placed};
ghost use Rattle.records.specs.Numbers.{number_of, record_report, term_report, said_of};
ghost use Rattle.records.specs.Reader.{Reads};
ghost use Rattle.records.specs.Beginnings.{pointed_record};
ghost use Rattle.record_listing.specs.Lines.{sign_text, length_text, lead, argument_text, said_line, line_of, lines_of, refusal_line, Shown, Listed, room, without_newline, reading_line, term_line, column_of, argument_of, columns_of};

use address::Address;
use records::{ReadTerm, Refusal, Term};
use text::bytes;
use text::writing::Writer;

// A term's line but for its place. What the term lacks is `None`.
#[derive(Clone, Copy)]
struct Columns<'a> {
    name: &'a [u8],
    sign: Option<u8>,
    argument: Option<&'a [u8]>,
    four: Option<u8>,
    six: Option<u8>,
}

// A sign, with a space before it.
fn put_sign(sign: Option<u8>, out: &mut Writer)
    ensures { Writes (bytes " " ++ sign_text (column_of sign)) out.old out.new }
{
    out.put(32);
    out.put(sign.unwrap_or(46));
}

// A prefix length, with a space before it.
pub fn put_length(length: Option<u8>, out: &mut Writer)
    ensures { Writes (bytes " " ++ length_text (column_of length)) out.old out.new }
{
    out.put(32);
    match length {
        Some(n) => address_text::put_decimal(n as u64, out),
        None => out.put(46),
    }
}

// What leads an argument: `:` a mechanism's, `=` a modifier's.
fn lead_of(sign: Option<u8>) -> u8
    ensures { result ≡ lead (column_of sign) }
{
    match sign {
        Some(_) => 58,
        None => 61,
    }
}

// An argument, with a space before it.
fn put_argument(sign: Option<u8>, argument: Option<&[u8]>, out: &mut Writer)
    ensures { Writes (bytes " " ++ argument_text (column_of sign) (argument_of argument.entry)) out.old out.new }
{
    out.put(32);
    match argument {
        Some(text) => {
            out.put(lead_of(sign));
            out.put_all(text);
        }
        None => out.put(46),
    }
}

// All of a term's line but its place.
fn put_columns(columns: Columns, out: &mut Writer)
    ensures { Writes (columns_of columns.entry) out.old out.new }
{
    out.put_lowered(columns.name);
    put_sign(columns.sign, out);
    put_argument(columns.sign, columns.argument, out);
    put_length(columns.four, out);
    put_length(columns.six, out);
    out.put(10);
}

// The columns of a term that was read in a record.
fn said_columns<'a>(s: &'a [u8], read: ReadTerm) -> Columns<'a>
    ensures { columns_of result ≡ said_line (said_of (part s.now read.at read.next) read.term) }
{
    let ReadTerm { at, next, term } = read;
    let argument = records::argument(s, at, next, term);
    let led = Columns {
        name: b"",
        sign: term.sign(),
        argument: Some(argument),
        four: None,
        six: None,
    };
    match term {
        Term::All { .. } => Columns {
            name: b"all",
            argument: None,
            ..led
        },
        Term::Include { .. } => Columns {
            name: b"include",
            ..led
        },
        Term::A {
            from,
            to,
            four,
            six,
            ..
        } => Columns {
            name: b"a",
            argument: (from != to).then_some(argument),
            four: Some(four),
            six: Some(six),
            ..led
        },
        Term::Mx {
            from,
            to,
            four,
            six,
            ..
        } => Columns {
            name: b"mx",
            argument: (from != to).then_some(argument),
            four: Some(four),
            six: Some(six),
            ..led
        },
        Term::Ptr { from, to, .. } => Columns {
            name: b"ptr",
            argument: (from != to).then_some(argument),
            ..led
        },
        Term::Network {
            address,
            length,
            ..
        } => match address {
            Address::IPv4(_) => Columns {
                name: b"ip4",
                four: Some(length),
                ..led
            },
            Address::IPv6(_, _) => Columns {
                name: b"ip6",
                six: Some(length),
                ..led
            },
        },
        Term::Exists { .. } => Columns {
            name: b"exists",
            ..led
        },
        Term::Redirect { .. } => Columns {
            name: b"redirect",
            ..led
        },
        Term::Explanation { .. } => Columns {
            name: b"exp",
            ..led
        },
        Term::Unknown { name, .. } => Columns {
            name: bytes::part(bytes::part(s, at, next), 0, name),
            ..led
        },
    }
}

// The line of a term that was read in a record.
fn put_term(s: &[u8], read: ReadTerm, out: &mut Writer)
    ensures { Writes (line_of (record { place = read.at; said = said_of (part s.now read.at read.next) read.term })) out.old out.new }
{
    put_place(read.at, out);
    put_columns(said_columns(s, read), out);
}

// The lines of the terms from a place on.
fn put_terms(s: &[u8], start: usize, out: &mut Writer)
    ensures wrote { (ts : List Placed) → Reads s.now start ts → Wrote (lines_of ts) out.old.out.now out.old.at out.new.out.now out.new.at }
    ensures same { out.new.out.ghost_name ≡ out.old.out.ghost_name }
{
    // Read so that its bound is known, which a record without terms needs.
    let _start = out.at;
    let mut i = start;
    loop {
        let Ok(Some(read)) = records::next_term(s, i) else {
            return;
        };
        put_term(s, read, out);
        i = read.next;
    }
}

// A refusal: its number and its place.
pub fn put_refusal(number: u8, place: usize, out: &mut Writer)
    ensures { Writes (refusal_line number place) out.old out.new }
{
    out.put_all(b"refused ");
    address_text::put_decimal(number as u64, out);
    out.put_all(b" at ");
    address_text::put_decimal(place as u64, out);
    out.put(10);
}

// A record's or a term's refusal.
fn put_refused(refusal: Refusal, out: &mut Writer)
    ensures { Writes (refusal_line (number_of refusal.reason) refusal.at) out.old out.new }
{
    put_refusal(refusal.reason.number(), refusal.at, out);
}

// Room for what is printed of a record.
pub fn buffer() -> [u8; 320000]
    ensures { room ≡ length result }
{
    [0; 320000]
}

// What is printed of a record.
fn put_listing(s: &[u8], out: &mut Writer)
    ensures shown { Shown s.now out.old out.new }
    ensures same { out.new.out.ghost_name ≡ out.old.out.ghost_name }
{
    match records::read_record(s) {
        Ok(next) => {
            out.put_all(b"at term sign arg four six\n");
            put_terms(s, next, out);
        }
        Err(refusal) => put_refused(refusal, out),
    }
}

// Writes what is printed of a record.
pub fn list_record(s: &[u8], out: &mut [u8]) -> usize
    requires { room ≤ length out.old }
    ensures { Listed s.now out.old out.new result }
{
    let mut w = Writer::new(out);
    put_listing(s, &mut w);
    w.at
}

// The part without one final newline.
pub fn without_newline(s: &[u8]) -> &[u8]
    ensures { result.now ≡ without_newline s.now }
{
    if let Some((last, front)) = s.split_last() {
        if *last == 10 {
            return front;
        }
    }
    s
}

// Writes what the program prints of an input, of which n bytes stand at the front of a buffer. An input that has more than 4,097 is refused, so that no more
// need be read than fit a buffer of 4,098.
pub fn list_input(input: &[u8], n: usize, out: &mut [u8]) -> usize
    requires in_bounds { 4098 ≤ length input.now }
    requires room_in_bounds { room ≤ length out.old }
    ensures { Listed (without_newline (part input.now 0 n)) out.old out.new result }
{
    list_record(without_newline(bytes::part(input, 0, n)), out)
}

// A place and a space.
fn put_place(place: usize, out: &mut Writer)
    ensures { Writes (in_decimal place ++ bytes " ") out.old out.new }
{
    address_text::put_decimal(place as u64, out);
    out.put(32);
}

// What the record reader answers: `accepted` and the place after the version, or a refusal.
fn put_record_answer(s: &[u8], out: &mut Writer)
    ensures { Writes (reading_line (record_report (pointed_record s.now))) out.old out.new }
{
    match records::read_record(s) {
        Ok(next) => {
            out.put_all(b"accepted ");
            address_text::put_decimal(next as u64, out);
            out.put(10);
        }
        Err(refusal) => put_refused(refusal, out),
    }
}

// The same at the front of a buffer.
pub fn put_reading(s: &[u8], out: &mut [u8]) -> usize
    ensures { Wrote (reading_line (record_report (pointed_record s.now))) out.old 0 out.new result }
{
    let mut w = Writer::new(out);
    put_record_answer(s, &mut w);
    w.at
}

// What the term reader answers: a term with its place and the next, the end, or a refusal.
fn put_answer(s: &[u8], answer: Result<Option<ReadTerm>, Refusal>, out: &mut Writer)
    ensures { Writes (term_line (term_report s.now answer)) out.old out.new }
{
    match answer {
        Ok(Some(read)) => {
            put_place(read.at, out);
            put_place(read.next, out);
            put_columns(said_columns(s, read), out);
        }
        Ok(None) => out.put_all(b"end\n"),
        Err(refusal) => put_refused(refusal, out),
    }
}

// The same at the front of a buffer.
pub fn put_term_answer(s: &[u8], answer: Result<Option<ReadTerm>, Refusal>, out: &mut [u8]) -> usize
    ensures { Wrote (term_line (term_report s.now answer)) out.old 0 out.new result }
{
    let mut w = Writer::new(out);
    put_answer(s, answer, &mut w);
    w.at
}
