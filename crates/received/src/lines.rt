// The line, measured and written.
ghost use Rattle.std.specs.Prelude.{◌≡◌, ◌++◌, length};
ghost use Rattle.text.specs.Writing.{Writes};
ghost use Rattle.address.specs.Octets.{as_client};
ghost use Rattle.address_text.specs.Forms.{readable};
ghost use Rattle.received.specs.Numbers.{Says};
ghost use Rattle.received.specs.Answers.{given_of, identity_text};
ghost use Rattle.received.specs.Texts.{formed, word_of, line_text, fitted, text_of};

use crate::{Checked, Identity, LineError, MOST_CLIENT, MOST_LINE, quoting};
use text::bytes;
use text::writing::Writer;

// The word of a result.
pub fn word_of(res: u8) -> &'static [u8]
    ensures { result.now ≡ word_of res }
{
    match res {
        0 => b"none",
        1 => b"neutral",
        2 => b"pass",
        3 => b"fail",
        4 => b"softfail",
        5 => b"temperror",
        _ => b"permerror",
    }
}

// The word of an identity.
fn identity_word(identity: Identity) -> &'static [u8]
    ensures { result.now ≡ identity_text identity }
{
    match identity {
        Identity::MailFrom => b"mailfrom",
        Identity::Helo => b"helo",
    }
}

// Writes a key and its value.
fn put_pair(key: &[u8], value: &[u8], out: &mut Writer)
    ensures { Writes (key.now ++ formed value.now) out.old out.new }
{
    out.put_all(key);
    quoting::put_form(value, out);
}

// Writes the line with the client's text.
fn put_line(res: u8, client: &[u8], checked: &Checked, out: &mut Writer)
    ensures { Writes (line_text res checked.now.receiver.now client.now checked.now.sender.now checked.now.helo.now (identity_text checked.now.identity)) out.old out.new }
{
    out.put_all(b"Received-SPF: ");
    out.put_all(word_of(res));
    put_pair(b" receiver=", checked.receiver, out);
    put_pair(b"; client-ip=", client, out);
    put_pair(b"; envelope-from=", checked.sender, out);
    put_pair(b"; helo=", checked.helo, out);
    put_pair(b"; identity=", identity_word(checked.identity), out);
    out.put_all(b"\r\n");
}

// Measures the line, and writes it if it fits.
fn write_fitting(
    res: u8,
    client: &[u8],
    checked: &Checked,
    out: &mut [u8],
) -> Result<usize, LineError>
    ensures { Says (fitted (line_text res checked.now.receiver.now client.now checked.now.sender.now checked.now.helo.now (identity_text checked.now.identity)) (length out.old)) result out.old out.new }
{
    let mut scratch = [0u8; 1];
    let mut measured = Writer::new(&mut scratch);
    put_line(res, client, checked, &mut measured);
    if MOST_LINE.min(out.len()) < measured.at {
        return Err(LineError::NoRoom);
    }
    let mut w = Writer::new(out);
    put_line(res, client, checked, &mut w);
    Ok(w.at)
}

// Writes a line whose values have been tested.
pub fn write_tested(res: u8, checked: &Checked, out: &mut [u8]) -> Result<usize, LineError>
    ensures { Says (fitted (text_of (given_of res checked.now)) (length out.old)) result out.old out.new }
{
    let mut text = [0u8; MOST_CLIENT];
    let mut w = Writer::new(&mut text);
    address_text::put_readable(address::as_client(checked.client), &mut w);
    let n = w.at;
    write_fitting(res, bytes::part(&text, 0, n), checked, out)
}
