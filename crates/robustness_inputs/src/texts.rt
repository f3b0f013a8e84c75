// Texts put into a lent buffer: words of a list, names, over-long runs and macro strings; and damage to a byte.
ghost use Rattle.std.specs.Prelude.{◌≡◌};
ghost use Rattle.text.specs.Bytes.{part};

use crate::random;
use text::bytes;
use text::writing::Writer;

// What a writer wrote, as far as its buffer goes.
pub fn written<'a>(out: &'a Writer) -> &'a [u8]
    ensures { result.now ≡ part out.now.out.now 0 out.now.at }
{
    bytes::part(out.out, 0, out.at)
}

// How many spaces stand in a list.
fn count_spaces(list: &[u8]) -> usize {
    list.iter().filter(|b| **b == b' ').count()
}

// A word of a list, in which one space stands between two words; so two spaces stand for an empty word.
pub fn put_word(seed: u64, index: u64, list: &[u8], out: &mut Writer) {
    let k = random::up_to(seed, index, count_spaces(list));
    out.put_all(case_support::word(list, k));
}

// The byte of a run at a place: a dot at each so many, else a letter.
fn run_byte(i: usize, step: usize) -> u8 {
    if step == 0 || i % step == 0 {
        b'.'
    } else {
        b'x'
    }
}

// A run of letters and dots.
fn put_run(size: usize, step: usize, out: &mut Writer) {
    for i in (1..=size).rev() {
        out.put(run_byte(i, step));
    }
}

// A run around the limits of names and arguments.
pub fn put_long(seed: u64, out: &mut Writer) {
    let size = 240 + random::up_to(seed, 1, 120);
    let step = if random::chance(seed, 2, 200) {
        65
    } else {
        random::up_to(seed, 3, 255)
    };
    put_run(size, step, out);
}

// So many times in a thousand, another byte at one of the places that were written from one on.
pub fn damage(seed: u64, times: usize, from: usize, out: &mut Writer) {
    let to = out.at.min(out.out.len());
    let s = &mut out.out[from.min(to)..to];
    if !s.is_empty() && random::chance(seed, 2, times) {
        let at = random::up_to(seed, 1, s.len() - 1);
        s[at] = damaged(seed, s[at]);
    }
}

// Another byte in the place of a byte: any one, one that differs in a bit, or one of those that part words.
fn damaged(seed: u64, b: u8) -> u8 {
    match random::up_to(seed, 3, 3) {
        0 => random::byte(seed, 4),
        1 => b ^ 1,
        2 => b ^ 32,
        _ => bytes::peek(b" .:/=%{}@-", random::up_to(seed, 5, 9)),
    }
}

// A name of the small set that records and tables speak of, from 0 to 11.
pub fn put_nth_name(k: usize, out: &mut Writer) {
    out.put_all(case_support::word(
        b"a.example b.example c.example d.example e.test mail.a.example x.mail.a.example host.b.example c.d.example why.a.example why.b.example single",
        k,
    ));
}

// One of these names, rarely one of the last three.
pub fn put_name(seed: u64, index: u64, out: &mut Writer) {
    let drawn = random::draw(seed, index);
    let k = if random::chance(seed, index, 30) {
        random::up_to(drawn, 1, 11)
    } else {
        random::up_to(drawn, 2, 8)
    };
    put_nth_name(k, out);
}

// A macro with a letter of a list.
fn put_macro(seed: u64, letters: &[u8], out: &mut Writer) {
    out.put_all(b"%{");
    put_word(seed, 1, letters, out);
    put_word(
        seed,
        2,
        b"        1 2 3 1 2 3 02 128 99999999999999999999",
        out,
    );
    put_word(seed, 3, b"   r R", out);
    put_word(seed, 4, b"     - . + ,/ _= -.", out);
    out.put(b'}');
}

// A piece of a macro string.
fn put_piece(seed: u64, letters: &[u8], out: &mut Writer) {
    if random::chance(seed, 1, 600) {
        put_macro(random::draw(seed, 2), letters, out);
    } else {
        put_word(
            seed,
            3,
            b". . . x mail. _spf. -b- foo-bar. A. 7 %% %- %_",
            out,
        );
    }
}

// Some pieces.
fn put_pieces(seed: u64, count: usize, letters: &[u8], out: &mut Writer) {
    for i in (1..=count).rev() {
        put_piece(random::draw(seed, i as u64), letters, out);
    }
}

// A macro string and a name, mostly a domain-spec.
fn put_prefixed(seed: u64, out: &mut Writer) {
    let count = random::up_to(seed, 1, 2);
    put_pieces(
        random::draw(seed, 2),
        count,
        b"s l o d i p v h S L O D I P V H",
        out,
    );
    put_word(seed, 4, b". . . .x. -", out);
    put_name(seed, 3, out);
}

// A name with over-long labels or with many.
fn put_long_name(seed: u64, out: &mut Writer) {
    put_long(seed, out);
    out.put(b'.');
    put_name(seed, 4, out);
}

// A domain-spec, or what is nearly one.
pub fn put_spec(seed: u64, out: &mut Writer) {
    match random::up_to(seed, 1, 99) {
        0..=69 => put_name(seed, 2, out),
        70..=85 => put_prefixed(random::draw(seed, 3), out),
        86..=97 => put_word(
            seed,
            4,
            b"%{d} %{o} %{h} %{p} %{d2} %{ir}.%{v}.arpa %{l}.%{d} %{p}.a.example why.%{d} %{i}.%{o} %{s} A.EXAMPLE b.example.",
            out,
        ),
        98 => put_word(
            seed,
            5,
            b" % %{ %{} .a.example c..example example.1 a.example-1 a.1-1 %{d0}.example %{c}.a.example single. a.b_c %{x}.a.example",
            out,
        ),
        _ => put_long_name(random::draw(seed, 6), out),
    }
}

// A text for an explanation, mostly one that can be expanded.
pub fn put_explanation(seed: u64, out: &mut Writer) {
    put_word(seed, 1, b"See http://a.example/why? No  Fail: ", out);
    let count = random::up_to(seed, 2, 6);
    put_pieces(
        random::draw(seed, 3),
        count,
        b"s l o d i p v h c r t S L O D I P V H C R T",
        out,
    );
    if random::chance(seed, 4, 100) {
        put_run(random::up_to(seed, 5, 600), 9, out);
    } else {
        out.put_all(b" for you.");
    }
}
