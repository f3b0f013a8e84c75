// The longest beginning of a run of non-spaces with which some term begins. An end of one of a few terms is put after a front of the run; if that is a
// term, some term begins with the front, and if none is, no term does. The longest such front is found by halving.
ghost use Rattle.std.specs.Prelude.{◌≡◌, ◌++◌, ◌+◌, ◌≤◌, length, take};
ghost use Rattle.records.specs.Answers.{most_bytes, Longest};
ghost use Rattle.records.specs.Reader.{token_of};
ghost use Rattle.records.specs.Beginnings.{room_bytes, ending, is_term, begins_term, longest};

use crate::terms::read_token;
use text::bytes;
use text::bytes::Class;
use text::writing::Writer;

// Room for the longest run and for any end after it.
const ROOM: usize = 4160;

fn room() -> [u8; ROOM]
    ensures { length result ≡ room_bytes }
{
    [0; ROOM]
}

// Whether the end of a term, from a place in it on, makes a term of the first n bytes of a buffer. It is written after them.
fn completes(terms: &[u8], from: usize, n: usize, room: &mut [u8]) -> bool
    requires { n + length terms.now ≤ length room.old }
    ensures value { result ≡ is_term (token_of (take n room.old ++ ending terms.now from)) }
    ensures room_unchanged { take n room.new ≡ take n room.old }
{
    let to = bytes::run_end(terms, from, Class::NotSpace);
    let mut w = Writer {
        out: &mut *room,
        at: n,
    };
    w.put_all(bytes::part(terms, from, to));
    let end = w.at;
    read_token(bytes::part(room, 0, end)).is_some()
}

// Whether some term begins with the first n bytes of a run.
fn begins_term(w: &[u8], n: usize, room: &mut [u8]) -> bool
    requires { (n ≤ most_bytes) × (length room.old ≡ room_bytes) }
    ensures { result ≡ begins_term (take n w.now) }
{
    let terms = b"x=.a a//0 ip4:0.0.0.0 ip6::: exists:%{d01} all mx ptr include:%%";
    let mut front = Writer::new(room);
    front.put_all(bytes::part(w, 0, n));
    let end = front.at;
    for from in 0..=terms.len() {
        if completes(terms, from, end, room) {
            return true;
        }
    }
    false
}

// How long the longest beginning of a run is with which some term begins.
pub fn longest_beginning(w: &[u8]) -> usize
    requires { length w.now ≤ most_bytes }
    ensures value { result ≡ longest w.now }
    ensures longest { Longest w.now result }
{
    let mut room = room();
    let mut begun = 0;
    let mut beyond = w.len() + 1;
    // By halves; `partition_point` is over the items of a slice.
    while begun + 1 < beyond {
        let middle = begun + (beyond - begun) / 2;
        if begins_term(w, middle, &mut room) {
            begun = middle;
        } else {
            beyond = middle;
        }
    }
    begun
}
