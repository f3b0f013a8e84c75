// The lines that the check program prints, written into a lent buffer.
ghost use Rattle.text.specs.Texts.{bytes};
ghost use Rattle.text.specs.Writing.{Writes};
ghost use Rattle.address_text.specs.Digits.{in_decimal};
ghost use Rattle.std.specs.Prelude.{◌++◌};
ghost use Rattle.evaluation.specs.Together.{refused_by};
ghost use Rattle.check_input.specs.Lines.{line, spaced, counts_text, report_text, given_lines};

use evaluation::Refusal;
use rules::Counts;
use text::writing::Writer;

// A text and the line's end.
pub fn put_line(s: &[u8], out: &mut Writer)
    ensures { Writes (line s.now) out.old out.new }
{
    out.put_all(s);
    out.put(10);
}

// A space and a number.
fn put_spaced(n: u64, out: &mut Writer)
    ensures { Writes (spaced n) out.old out.new }
{
    out.put(32);
    address_text::put_decimal(n, out);
}

// Both counts, the lifetime and the line's end.
fn put_counts(counts: Counts, lifetime: u32, out: &mut Writer)
    ensures { Writes (counts_text counts.lookups counts.voids lifetime) out.old out.new }
{
    put_spaced(counts.lookups as u64, out);
    put_spaced(counts.voids as u64, out);
    put_spaced(lifetime as u64, out);
    out.put(10);
}

// A number without a kind or place, the counts and the lifetime.
pub fn put_number(number: u8, counts: Counts, lifetime: u32, out: &mut Writer)
    ensures { Writes (report_text number (bytes ".") counts.lookups counts.voids lifetime) out.old out.new }
{
    address_text::put_decimal(number as u64, out);
    out.put(32);
    out.put(46);
    put_counts(counts, lifetime, out);
}

// A number, its kind or place, the counts and the lifetime.
fn put_placed(number: u8, place: u64, counts: Counts, lifetime: u32, out: &mut Writer)
    ensures { Writes (report_text number (in_decimal place) counts.lookups counts.voids lifetime) out.old out.new }
{
    address_text::put_decimal(number as u64, out);
    out.put(32);
    address_text::put_decimal(place, out);
    put_counts(counts, lifetime, out);
}

// 7, its kind, the counts and the lifetime, and the name on a second line.
pub fn put_named(kind: u16, counts: Counts, lifetime: u32, name: &[u8], out: &mut Writer)
    ensures { Writes (report_text 7 (in_decimal kind) counts.lookups counts.voids lifetime ++ line name.now) out.old out.new }
{
    put_placed(7, kind as u64, counts, lifetime, out);
    put_line(name, out);
}

// A refusal's number, its place where it has one, and counts and a lifetime of 0.
pub fn put_refusal(refusal: Refusal, out: &mut Writer)
    ensures { Writes (given_lines (refused_by refusal)) out.old out.new }
{
    let none = Counts {
        lookups: 0,
        voids: 0,
    };
    match refusal.place() {
        Some(at) => put_placed(refusal.number(), at as u64, none, 0, out),
        None => put_number(refusal.number(), none, 0, out),
    }
}
