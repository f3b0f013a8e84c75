// Terms and records put into a lent buffer: all mechanisms and modifiers, what is nearly one, and records of them.
use crate::{random, texts};
use text::writing::Writer;

// A sign, or none.
fn put_sign(seed: u64, out: &mut Writer) {
    texts::put_word(seed, 1, b"    + - ~ ?", out);
}

// A mechanism's sign and name.
fn put_head(seed: u64, names: &[u8], out: &mut Writer) {
    put_sign(seed, out);
    texts::put_word(seed, 2, names, out);
}

// A mechanism with a domain-spec.
fn put_with_spec(seed: u64, names: &[u8], out: &mut Writer) {
    put_head(seed, names, out);
    texts::put_spec(random::draw(seed, 3), out);
}

// A mechanism with a domain-spec or without one.
fn put_with_option(seed: u64, names: &[u8], out: &mut Writer) {
    put_head(seed, names, out);
    if random::chance(seed, 4, 600) {
        out.put(b':');
        texts::put_spec(random::draw(seed, 5), out);
    }
}

// The same with prefix lengths or without.
fn put_hosts(seed: u64, names: &[u8], out: &mut Writer) {
    put_with_option(seed, names, out);
    texts::put_word(
        seed,
        6,
        b"       /24 /0 /32 //64 //128 //0 /24//64 /32//128",
        out,
    );
}

fn put_ip4(seed: u64, out: &mut Writer) {
    put_head(seed, b"ip4: ip4: ip4: IP4:", out);
    texts::put_word(
        seed,
        3,
        b"192.0.2.0 192.0.2.1 192.0.2.2 192.0.2.3 192.0.2.4 192.0.2.129 10.0.0.1 0.0.0.0 255.255.255.255 10.0.0.0 10.1.2.3",
        out,
    );
    texts::put_word(seed, 4, b"     /24 /25 /31 /32 /0 /8", out);
}

fn put_ip6(seed: u64, out: &mut Writer) {
    put_head(seed, b"ip6: ip6: ip6: Ip6:", out);
    texts::put_word(
        seed,
        3,
        b"2001:db8::1 2001:db8::2 2001:DB8:: :: ::1 1:2:3:4:5:6:7:: ::ffff:192.0.2.1 2001:db8:0:0:0:0:0:3 64:ff9b::192.0.2.1",
        out,
    );
    texts::put_word(seed, 4, b"     /32 /64 /127 /128 /0", out);
}

fn put_redirect(seed: u64, out: &mut Writer) {
    out.put_all(b"redirect=");
    texts::put_spec(random::draw(seed, 3), out);
}

fn put_exp(seed: u64, out: &mut Writer) {
    texts::put_word(
        seed,
        3,
        b"exp=why.a.example exp=why.b.example exp=why.%{d} Exp=why.%{p} exp=why.%{i} exp=single",
        out,
    );
}

// A modifier that the grammar does not name.
fn put_unknown(seed: u64, out: &mut Writer) {
    texts::put_word(
        seed,
        2,
        b"x=y foo=%{d} moo.cow-far_out=man:dog/cat ip4=192.0.2.1 x= v=spf1 a1=%{c}%{t} X-y=%%%_%- all=%{R}",
        out,
    );
}

// What is nearly a term.
fn put_outside(seed: u64, out: &mut Writer) {
    texts::put_word(
        seed,
        2,
        b"foo -x=y a: a/ a/33 mx//129 a/032 ip4 ip4: ip4:192.0.2.256 ip4:192.0.2.0/33 ip6::: ip6:::/129 ip6:1:2:3:4:5:6:7:8:: include ptr/24 all:x exp= =x x=%",
        out,
    );
}

// A term.
fn put_term(seed: u64, out: &mut Writer) {
    match random::up_to(seed, 0, 199) {
        0..=3 => put_head(seed, b"all all All", out),
        4..=43 => put_with_spec(seed, b"include: include: include: Include:", out),
        44..=73 => put_hosts(seed, b"a a a A", out),
        74..=95 => put_hosts(seed, b"mx mx mx MX", out),
        96..=113 => put_with_option(seed, b"ptr ptr ptr pTr", out),
        114..=129 => put_ip4(seed, out),
        130..=141 => put_ip6(seed, out),
        142..=171 => put_with_spec(seed, b"exists: exists: exists: EXISTS:", out),
        172..=175 => put_redirect(seed, out),
        176..=183 => put_exp(seed, out),
        184..=198 => put_unknown(seed, out),
        _ => put_outside(seed, out),
    }
}

// Some terms, each after a space.
fn put_terms(seed: u64, count: usize, out: &mut Writer) {
    for i in (1..=count).rev() {
        out.put(b' ');
        put_term(random::draw(seed, i as u64), out);
    }
}

// How a record ends: with nothing, or with a space and mostly a last term.
fn put_end(seed: u64, out: &mut Writer) {
    let end = random::up_to(seed, 1, 9);
    if end != 2 {
        out.put(b' ');
    }
    match end {
        0 => put_redirect(seed, out),
        1..=2 => {}
        3..=5 => {
            out.put_all(b"-all ");
            put_exp(seed, out);
        }
        _ => texts::put_word(seed, 2, b"-all ~all ?all all", out),
    }
}

// How many terms a record has.
fn count_terms(seed: u64) -> usize {
    if random::chance(seed, 1, 250) {
        random::up_to(seed, 2, 14)
    } else {
        random::up_to(seed, 3, 4)
    }
}

// A version section, rarely what is nearly one.
fn put_version(seed: u64, out: &mut Writer) {
    if random::chance(seed, 1, 30) {
        texts::put_word(seed, 2, b"V=SPF1 v=spf10 spf1 v=spf2", out);
    } else {
        out.put_all(b"v=spf1");
    }
}

// A record with so many terms.
fn put_record_of(seed: u64, count: usize, out: &mut Writer) {
    put_version(random::draw(seed, 1), out);
    put_terms(random::draw(seed, 2), count, out);
    put_end(random::draw(seed, 3), out);
}

// A record.
pub fn put_record(seed: u64, out: &mut Writer) {
    put_record_of(
        random::draw(seed, 1),
        count_terms(random::draw(seed, 2)),
        out,
    );
}

// A record, rarely one around the limit of its length.
pub fn put_long_record(seed: u64, out: &mut Writer) {
    if random::chance(seed, 3, 20) {
        put_record_of(
            random::draw(seed, 1),
            150 + random::up_to(seed, 4, 200),
            out,
        );
    } else {
        put_record(seed, out);
    }
}
