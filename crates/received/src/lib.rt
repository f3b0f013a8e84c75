// The Received-SPF line (RFC 7208 section 9.1): written, read back to the parts of its values, and a part's value.
#![tactic(auto)]

ghost use Rattle.std.specs.Prelude.{◌≡◌, length};
ghost use Rattle.received.specs.Numbers.{error_number, Says};
ghost use Rattle.received.specs.Answers.{given_of, WritesLine, ReadsLine, UnquotesPart};
ghost use Rattle.received.specs.Texts.{outcome};
ghost use Rattle.received.specs.Reader.{line_answer};

use address::Address;
use macros::values;
use text::bytes;
use text::spans::Span;
use text::writing::Writer;

pub mod clients;
pub mod lines;
pub mod quoting;
pub mod reading;

// The most bytes of a line, its CRLF included.
pub const MOST_LINE: usize = 1500;

// The most bytes of a value: those of a sender.
pub const MOST_VALUE: usize = 320;

// The most bytes of a value's part: each may have a backslash before it.
pub const MOST_PART: usize = 640;

// The most bytes of a HELO name or a receiver.
pub const MOST_HOST: usize = 255;

// The most bytes of a client's text.
pub const MOST_CLIENT: usize = 39;

// Which identity was checked.
#[derive(Clone, Copy)]
pub enum Identity {
    MailFrom,
    Helo,
}

// Why a line isn't written or read, or a part has no value.
#[derive(Clone, Copy, PartialEq, Eq)]
pub enum LineError {
    Sender,
    Host,
    NoRoom,
    NoLine,
    NoResult,
}

impl LineError {
    // The refusal's number.
    pub fn number(self) -> u8
        ensures { result ≡ error_number self }
    {
        match self {
            LineError::Sender => 20,
            LineError::Host => 21,
            LineError::NoRoom => 50,
            LineError::NoLine => 51,
            LineError::NoResult => 52,
        }
    }
}

// What a line is written from, but the result.
#[derive(Clone, Copy)]
pub struct Checked<'a> {
    pub client: Address,
    pub sender: &'a [u8],
    pub helo: &'a [u8],
    pub receiver: &'a [u8],
    pub identity: Identity,
}

// The result's number, and the part of each value: without quotes, with its backslashes.
#[derive(Clone, Copy)]
pub struct Parts {
    pub result: u8,
    pub receiver: Span,
    pub client: Span,
    pub sender: Span,
    pub helo: Span,
    pub identity: Span,
}

// Writes the line at the front of the buffer: 20, 21, 52, 50, or its length.
pub fn write_line(res: u8, checked: &Checked, out: &mut [u8]) -> Result<usize, LineError>
    ensures says { Says (outcome (given_of res checked.now) (length out.old)) result out.old out.new }
    ensures writes_line { WritesLine (given_of res checked.now) result out.old out.new }
{
    if !values::is_sender(checked.sender) {
        return Err(LineError::Sender);
    }
    if !values::are_hosts(checked.helo, checked.receiver) {
        return Err(LineError::Host);
    }
    if 7 <= res {
        return Err(LineError::NoResult);
    }
    lines::write_tested(res, checked, out)
}

// Reads a line: 51, or its result and the parts of its values.
pub fn read_line(line: &[u8]) -> Result<Parts, LineError>
    ensures value { result ≡ line_answer line.now }
    ensures reads_line { ReadsLine line.now result }
{
    if MOST_LINE < line.len() {
        return Err(LineError::NoLine);
    }
    let parts = reading::parts_of(line);
    if reading::is_line(line, parts) {
        Ok(parts)
    } else {
        Err(LineError::NoLine)
    }
}

// Takes the backslashes out of a part: 51, 50, or the length of its value, at the front of the buffer.
pub fn unquote(part: &[u8], out: &mut [u8]) -> Result<usize, LineError>
    ensures { UnquotesPart part.now result out.old out.new }
{
    let mut value = [0u8; MOST_VALUE];
    let mut w = Writer::new(&mut value);
    quoting::put_unescaped(part, &mut w);
    let n = w.at;
    if MOST_VALUE < n {
        return Err(LineError::NoLine);
    }
    quoting::write_value(bytes::part(&value, 0, n), part, out)
}
