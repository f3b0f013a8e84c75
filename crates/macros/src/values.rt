// The values that an expansion is given: their tests, and the parts of a sender.
ghost use Rattle.std.specs.Prelude.{◌≡◌, ◌&&◌};
ghost use Rattle.text.specs.Writing.{Writes};
ghost use Rattle.macros.specs.Expansion.{sender_domain, local_as_written, local_part, receiver_name, is_sender, is_host, is_short};

use text::bytes::Class;
use text::words;
use text::writing::Writer;

// 20: whether a sender is 1 to 320 bytes of 32 to 126.
pub fn is_sender(s: &[u8]) -> bool
    ensures { result ≡ is_sender s.now }
{
    match s.len() {
        1..=320 => words::every(s, Class::Printable),
        _ => false,
    }
}

// 21: whether a HELO name or a receiver is up to 255 bytes of 33 to 126.
pub fn is_host(s: &[u8]) -> bool
    ensures { result ≡ is_host s.now }
{
    s.len() <= 255 && words::every(s, Class::Visible)
}

// 21: whether both the HELO name and the receiver pass.
pub fn are_hosts(helo: &[u8], receiver: &[u8]) -> bool
    ensures { result ≡ (is_host helo.now && is_host receiver.now) }
{
    is_host(helo) && is_host(receiver)
}

// 22: whether a domain or a p value is up to 255 bytes.
pub fn is_short(s: &[u8]) -> bool
    ensures { result ≡ is_short s.now }
{
    s.len() <= 255
}

// 22: whether both the domain and the p value pass.
pub(crate) fn are_short(domain: &[u8], p: &[u8]) -> bool
    ensures { result ≡ (is_short domain.now && is_short p.now) }
{
    is_short(domain) && is_short(p)
}

// The receiver, `unknown` where it is empty.
pub(crate) fn receiver_name(receiver: &[u8]) -> &[u8]
    ensures { result.now ≡ receiver_name receiver.now }
{
    if receiver.is_empty() {
        b"unknown"
    } else {
        receiver
    }
}

// What stands after a sender's last `@`; all of it where there is none.
pub fn sender_domain(sender: &[u8]) -> &[u8]
    ensures { result.now ≡ sender_domain sender.now }
{
    match sender.iter().rposition(|b| *b == b'@') {
        Some(i) => &sender[i + 1..],
        None => sender,
    }
}

// The local part as it is written: what stands before a sender's last `@`; nothing where there is none.
fn written_local(sender: &[u8]) -> &[u8]
    ensures { result.now ≡ local_as_written sender.now }
{
    match sender.iter().rposition(|b| *b == b'@') {
        Some(i) => &sender[..i],
        None => &sender[..0],
    }
}

// Writes the local part, `postmaster` where it is absent or empty.
pub fn put_local(sender: &[u8], out: &mut Writer)
    ensures { Writes (local_part sender.now) out.old out.new }
{
    let local = written_local(sender);
    if local.is_empty() {
        out.put_all(b"postmaster");
    } else {
        out.put_all(local);
    }
}
