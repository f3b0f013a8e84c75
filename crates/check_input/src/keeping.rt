// What of an input is held while it is read: of each line and of the table one byte more than its limit.
ghost use Rattle.std.specs.Prelude.{◌≤◌, ◌≡◌, ◌++◌, length, take};
ghost use Rattle.text.specs.Bytes.{part};
ghost use Rattle.text.specs.Writing.{Writes};
ghost use Rattle.text.specs.Fields.{first_field};
ghost use Rattle.check_input.specs.Keeping.{line_end, without_zeros, time_front, kept_by, time_fronts, host_fronts, kept, Held, most_kept, most_chunk, held_room};

use text::bytes::{part, run_end_by};
use text::fields::{after_fields, field};
use text::writing::Writer;

// A number without the zeros that lead it; its last byte stays.
fn without_zeros(s: &[u8]) -> &[u8]
    ensures { result.now ≡ without_zeros s.now }
{
    let zeros = run_end_by(s, 0, |b| b == b'0');
    &s[zeros.min(s.len().saturating_sub(1))..]
}

// A front of the first line, and the line's end if it has one.
fn put_front(front: &[u8], input: &[u8], out: &mut Writer)
    ensures { Writes (front.now ++ line_end input.now) out.old out.new }
{
    out.put_all(front);
    if field(input, b'\n', 0).len() < input.len() {
        out.put(b'\n');
    }
}

// As much of the first line as a limit allows.
fn keep_line(input: &[u8], limit: usize, out: &mut Writer)
    ensures { Writes (take limit (first_field 10 input.now) ++ line_end input.now) out.old out.new }
{
    put_front(part(field(input, b'\n', 0), 0, limit), input, out)
}

// The line of t.
fn keep_time(input: &[u8], out: &mut Writer)
    ensures { Writes (time_front (first_field 10 input.now) ++ line_end input.now) out.old out.new }
{
    put_front(
        part(without_zeros(field(input, b'\n', 0)), 0, 21),
        input,
        out,
    )
}

// The line of t and the table.
fn keep_from_time(input: &[u8], out: &mut Writer)
    ensures { Writes (kept_by time_fronts input.now) out.old out.new }
{
    keep_time(input, out);
    out.put_all(part(after_fields(input, b'\n', 1), 0, 65536))
}

// The lines of HELO and receiver, and what follows.
fn keep_from_helo(input: &[u8], out: &mut Writer)
    ensures { Writes (kept_by host_fronts input.now) out.old out.new }
{
    let receiver = after_fields(input, b'\n', 1);
    keep_line(input, 256, out);
    keep_line(receiver, 256, out);
    keep_from_time(after_fields(input, b'\n', 2), out)
}

// The lines of client, domain and sender, and what follows.
fn keep(input: &[u8], out: &mut Writer)
    ensures { Writes (kept input.now) out.old out.new }
{
    let domain = after_fields(input, b'\n', 1);
    let sender = after_fields(input, b'\n', 2);
    keep_line(input, 46, out);
    keep_line(domain, 256, out);
    keep_line(sender, 321, out);
    keep_from_helo(after_fields(input, b'\n', 3), out)
}

// Room for what is kept.
fn room() -> [u8; 66698]
    ensures { most_kept ≡ length result }
{
    [0; 66698]
}

// Adds the front of a chunk to what a buffer holds of an input, n bytes; answers how many it holds then.
pub fn hold(held: &mut [u8], n: usize, chunk: &[u8], size: usize) -> usize
    requires n_le_most_kept { n ≤ most_kept }
    requires chunk_len_bound { length chunk.now ≤ most_chunk }
    requires held_room_in_bounds { held_room ≤ length held.old }
    ensures { Held held.old n (part chunk.now 0 size) held.new result }
{
    let mut space = room();
    let mut more = Writer { out: held, at: n };
    more.put_all(part(chunk, 0, size));
    let end = more.at;
    let mut kept = Writer::new(&mut space);
    keep(part(held, 0, end), &mut kept);
    let left = kept.at;
    let mut front = Writer::new(held);
    front.put_all(part(&space, 0, left));
    front.at
}
