// Answer tables put into a lent buffer: entries for the small set of names and for a question that was wanted, crowds of entries, and damage.
use crate::{random, terms, texts};
use answer_entry::{NewEntry, encoding};
use text::writing::Writer;

// An IPv4 address of a small set, rarely with a byte too many.
fn put_four(seed: u64, out: &mut Writer) {
    let host = random::up_to(seed, 1, 4) as u8;
    out.put_all(b"\xc0\x00\x02");
    out.put(host);
    if random::chance(seed, 2, 2) {
        out.put(host);
    }
}

// An IPv6 address of a small set.
fn put_six(seed: u64, out: &mut Writer) {
    out.put_all(b"\x20\x01\x0d\xb8\x00\x00\x00\x00\x00\x00\x00\x00\x00\x00\x00");
    out.put(random::up_to(seed, 1, 3) as u8);
}

// A host's name, mostly of the small set.
fn put_host(seed: u64, out: &mut Writer) {
    if random::chance(seed, 1, 2) {
        texts::put_word(seed, 2, b"A.example a..example b.example. n", out);
    } else {
        texts::put_name(seed, 3, out);
    }
}

// A preference and a host, or no host.
fn put_exchange(seed: u64, out: &mut Writer) {
    encoding::put_number(random::up_to(seed, 1, 2) * 10, out);
    if !random::chance(seed, 2, 50) {
        put_host(random::draw(seed, 3), out);
    }
}

// A text: a record, an explanation, or another.
fn put_text(seed: u64, name: &[u8], out: &mut Writer) {
    if name.starts_with(b"why.") {
        return texts::put_explanation(seed, out);
    }
    match random::up_to(seed, 1, 29) {
        0 => texts::put_explanation(seed, out),
        1 => texts::put_word(seed, 2, b" hello v=spf v=spf2.0/mfrom V=SPF1 v=spf1", out),
        2 => put_damaged_record(seed, out),
        _ => terms::put_record(seed, out),
    }
}

// A record with another byte in it.
fn put_damaged_record(seed: u64, out: &mut Writer) {
    let at = out.at;
    terms::put_record(seed, out);
    texts::damage(random::draw(seed, 3), 1000, at, out);
}

// The bytes of an item for an entry of a kind and name.
fn put_value(seed: u64, kind: u16, name: &[u8], out: &mut Writer) {
    match kind {
        1 => put_four(seed, out),
        28 => put_six(seed, out),
        12 => put_host(seed, out),
        15 => put_exchange(seed, out),
        _ => put_text(seed, name, out),
    }
}

// Puts at a place the length of what was written after the two bytes that stand there.
fn put_length(at: usize, out: &mut Writer) {
    let end = out.at;
    out.at = at;
    encoding::put_number(end.saturating_sub(at).saturating_sub(2), out);
    out.at = end;
}

// An item: its length and its bytes.
fn put_item(seed: u64, kind: u16, name: &[u8], out: &mut Writer) {
    let at = out.at;
    encoding::put_number(0, out);
    put_value(seed, kind, name, out);
    put_length(at, out);
}

// So many items.
fn put_items(seed: u64, kind: u16, name: &[u8], count: usize, out: &mut Writer) {
    for i in (1..=count).rev() {
        put_item(random::draw(seed, i as u64), kind, name, out);
    }
}

// How many items an answer of a kind has; a name mostly has one record, and a host some addresses.
fn count_items(seed: u64, kind: u16) -> usize {
    match random::up_to(seed, 1, 99) {
        0..=4 => 0,
        5..=7 => 9 + random::up_to(seed, 2, 3),
        8..=11 => 2,
        _ => match kind {
            16 | 99 => 1,
            _ => 1 + random::up_to(seed, 3, 3),
        },
    }
}

// The status of an entry: one that there is not, failed, no such name, or answered.
fn pick_status(seed: u64, kind: u16) -> u8 {
    match random::up_to(seed, 1, 999) {
        0 => 1,
        1..=30 => 2,
        31..=70 => 3,
        71..=330 => match kind {
            16 | 99 => 0,
            _ => 3,
        },
        _ => 0,
    }
}

// The lifetime of an entry: of a small set, so that two are often the same, the largest, or any.
fn pick_lifetime(seed: u64) -> u32 {
    match random::up_to(seed, 1, 9) {
        0 => 0,
        1 => 4294967295,
        2..=5 => 60 * random::up_to(seed, 2, 60) as u32,
        _ => (random::draw(seed, 3) % 4294967296) as u32,
    }
}

// The items of an entry by its status; only a damaged entry that was not answered has some.
fn put_answers(seed: u64, kind: u16, status: u8, name: &[u8], out: &mut Writer) {
    if status == 0 {
        put_items(seed, kind, name, count_items(seed, kind), out);
    } else if random::chance(seed, 4, 2) {
        put_items(seed, kind, name, 1, out);
    }
}

// An entry of a kind and name.
fn put_entry(seed: u64, kind: u16, name: &[u8], out: &mut Writer) {
    let at = out.at;
    let head = NewEntry {
        kind,
        status: pick_status(random::draw(seed, 1), kind),
        lifetime: pick_lifetime(random::draw(seed, 3)),
        name,
        items: b"",
    };
    encoding::put_number(0, out);
    encoding::put_head(&head, out);
    put_answers(random::draw(seed, 2), kind, head.status, name, out);
    put_length(at, out);
}

// A kind by its index from 0 to 5.
fn kind_of(k: usize) -> u16 {
    match k {
        0 => 1,
        1 => 12,
        2 => 15,
        3 => 16,
        4 => 28,
        _ => 99,
    }
}

// The entry of the k-th pair of a name of the small set and a kind, from 0 to 71.
fn put_pair(seed: u64, k: usize, out: &mut Writer) {
    let mut space = [0u8; 32];
    let mut name = Writer::new(&mut space);
    texts::put_nth_name(k / 6, &mut name);
    put_entry(seed, kind_of(k % 6), texts::written(&name), out);
}

// Entries of the pairs, each of them so many times in a thousand.
fn put_pairs(seed: u64, times: usize, out: &mut Writer) {
    for k in (0..72usize).rev() {
        if random::chance(seed, k as u64, times) {
            put_pair(random::draw(random::draw(seed, 100), k as u64), k, out);
        }
    }
}

// An entry of a name of its own without items.
fn put_small(k: usize, out: &mut Writer) {
    let name = [97 + (k % 26) as u8, 97 + (k / 26 % 26) as u8];
    let entry = NewEntry {
        kind: 1,
        status: 0,
        lifetime: (k % 65536) as u32,
        name: &name,
        items: b"",
    };
    encoding::put_entry(&entry, out);
}

// A crowd of entries.
fn put_crowd(count: usize, out: &mut Writer) {
    for k in (1..=count).rev() {
        put_small(k, out);
    }
}

// A table: empty, or with few or most of the pairs, or with nearly as many entries as a table may have, or more.
pub fn put_table(seed: u64, out: &mut Writer) {
    match random::up_to(seed, 1, 299) {
        0 => put_crowd(509 + random::up_to(seed, 2, 4), out),
        1..=99 => {}
        100..=199 => put_pairs(random::draw(seed, 3), 200, out),
        _ => put_pairs(random::draw(seed, 3), 600, out),
    }
}

// A table with one more entry, rarely with it twice or with one that may stand there already.
pub fn grow(seed: u64, kind: u16, name: &[u8], out: &mut Writer) {
    put_entry(random::draw(seed, 1), kind, name, out);
    if random::chance(seed, 2, 10) {
        put_entry(random::draw(seed, 3), kind, name, out);
    } else if random::chance(seed, 4, 10) {
        put_pair(random::draw(seed, 5), random::up_to(seed, 6, 71), out);
    }
}

// A table rarely cut, made over-long or with a byte damaged.
pub fn spoil(seed: u64, out: &mut Writer) {
    texts::damage(random::draw(seed, 1), 20, 0, out);
    match random::up_to(seed, 2, 399) {
        0..=1 => out.at = random::up_to(seed, 3, out.at),
        2..=3 => out.at = out.out.len(),
        _ => {}
    }
}
