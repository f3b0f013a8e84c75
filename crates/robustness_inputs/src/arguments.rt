// The arguments of a call: clients, domains, senders, hosts, and the lengths of the lent buffers, of small sets, with odd and over-long ones among them.
use crate::{random, texts};
use address::Address;
use text::writing::Writer;

// A client of either family, or an IPv4 one in its mapped form.
pub fn pick_client(seed: u64) -> Address {
    let host = random::draw(seed, 2) % 4;
    match random::up_to(seed, 1, 19) {
        0..=10 => Address::IPv4((3221225984 + host) as u32),
        11 => Address::IPv4((random::draw(seed, 3) % 4294967296) as u32),
        12..=16 => Address::IPv6(2306139568115548160, host),
        17..=18 => Address::IPv6(0, 281473902969344 + host),
        _ => Address::IPv6(random::draw(seed, 4), random::draw(seed, 5)),
    }
}

// A text of a list, or rarely an over-long one, or with a byte damaged.
fn put_argument(seed: u64, list: &[u8], out: &mut Writer) {
    if random::chance(seed, 1, 30) {
        texts::put_long(random::draw(seed, 2), out);
    } else {
        let at = out.at;
        texts::put_word(seed, 3, list, out);
        texts::damage(random::draw(seed, 4), 20, at, out);
    }
}

// A domain to check.
pub fn put_domain(seed: u64, out: &mut Writer) {
    if random::chance(seed, 12, 15) {
        texts::put_long(random::draw(seed, 13), out);
    } else if random::chance(seed, 10, 750) {
        texts::put_nth_name(random::up_to(seed, 11, 8), out);
    } else {
        put_argument(
            seed,
            b"A.Example b.example. C.EXAMPLE. E.test D.example mail.A.example C.d.Example. single a..example .a.example %41.example d.example..  a_b.test",
            out,
        );
    }
}

// The domain for an explanation: that which an evaluation handed out, or rarely another.
pub fn put_failing(seed: u64, domain: &[u8], out: &mut Writer) {
    if random::chance(seed, 1, 40) {
        put_domain(random::draw(seed, 2), out);
    } else {
        out.put_all(domain);
    }
}

// A place or length for an explanation: that which an evaluation handed out, or rarely the next or the last one, 0, or any number.
pub fn pick_near(seed: u64, n: usize) -> usize {
    match random::up_to(seed, 1, 99) {
        0..=1 => n.wrapping_add(1),
        2..=3 => n.wrapping_sub(1),
        4 => 0,
        5 => random::draw(seed, 2) as usize,
        _ => n,
    }
}

pub fn put_sender(seed: u64, out: &mut Writer) {
    put_argument(
        seed,
        b"user@a.example strong-bad@b.example @c.example d.example a@b@c.example postmaster@ first.last+tag@a.example User@E.Test x@single a/b=c@d.example",
        out,
    );
}

// A HELO name.
pub fn put_helo(seed: u64, out: &mut Writer) {
    put_argument(
        seed,
        b"mail.a.example b.example [192.0.2.1] single x_y.example  Host.B.Example",
        out,
    );
}

pub fn put_receiver(seed: u64, out: &mut Writer) {
    put_argument(seed, b"  rx.example mx1.a.example", out);
}

// A value of p for an expansion.
pub fn put_p(seed: u64, out: &mut Writer) {
    put_argument(seed, b"unknown mail.a.example a.example ", out);
}

// The time.
pub fn pick_seconds(seed: u64) -> u64 {
    match random::up_to(seed, 1, 9) {
        0 => 0,
        1 => 18446744073709551615,
        2 => random::draw(seed, 2),
        _ => 1700000000 + random::draw(seed, 3) % 1000000,
    }
}

// The length of a name buffer.
pub fn name_room(seed: u64) -> usize {
    match random::up_to(seed, 4, 99) {
        0 => 0,
        1 => 252,
        2..=19 => 300,
        _ => 253,
    }
}

// The length of a text buffer.
pub fn text_room(seed: u64) -> usize {
    match random::up_to(seed, 5, 99) {
        0 => 0,
        1 => 499,
        2..=19 => 600,
        _ => 500,
    }
}
