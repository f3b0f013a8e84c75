// Macro strings: their grammar and their expansion.
#![tactic(auto)]

ghost use Rattle.std.specs.Prelude.{◌≤◌, ◌≡◌, true, List, ◌↔◌, length};
ghost use Rattle.macros.specs.Grammar.{Piece, Produces};
ghost use Rattle.macros.specs.Reader.{pieces, scan_of, is_macro_string, uses_p};
ghost use Rattle.domain.specs.Normal.{name_answer, name_buffer};
ghost use Rattle.macros.specs.Expansion.{given_of, values_of, letters_of, text_of};
ghost use Rattle.macros.specs.Numbers.{number_of, fitted, outcome, Says};
ghost use Rattle.macros.specs.Answers.{Answered};
ghost use Rattle.macros.specs.Question.{question_name};

use address::Address;
use emit::Letters;
use pieces::Found;
use text::bytes;
use text::bytes::Class;
use text::writing::Writer;

pub mod emit;
pub mod endings;
pub mod pieces;
pub mod values;

// What a macro string is read as.
#[derive(Clone, Copy)]
pub enum Form {
    DomainSpec,
    ModifierValue,
    Explanation,
}

// What one walk over a text tells: whether it is pieces up to its end, whether the last one is a macro-expand, and whether a p macro stands among
// those before the end or the first that is none.
#[derive(Clone, Copy)]
pub struct Summary {
    pub whole: bool,
    pub expands: bool,
    pub asks: bool,
}

// One walk over the pieces of a text. By places and not piece by piece, which is no plainer here: bytes that stand for themselves are passed in runs.
fn scan(form: Form, text: &[u8]) -> Summary
    ensures { result ≡ scan_of form text.now }
{
    let mut at = 0;
    let mut expands = false;
    let mut asks = false;
    while at < text.len() {
        let plain = bytes::run_end(text, at, Class::MacroLiteral);
        if at < plain {
            at = plain;
            expands = false;
        } else {
            let Some(found) = pieces::read_piece(form, &text[at..]) else {
                return Summary {
                    whole: false,
                    expands,
                    asks,
                };
            };
            match found {
                Found::Literal(_) => {
                    at += 1;
                    expands = false;
                }
                Found::Escape(_) => {
                    at += 2;
                    expands = true;
                }
                Found::Expand(m) => {
                    at += m.delimiters.to + 1;
                    expands = true;
                    asks |= bytes::to_lower(m.letter) == b'p';
                }
            }
        }
    }
    Summary {
        whole: true,
        expands,
        asks,
    }
}

// Whether a text is a macro string of the form.
pub fn read_macro_string(form: Form, text: &[u8]) -> bool
    ensures value { result ≡ is_macro_string form text.now }
    ensures variant { (result ≡ true) ↔ ((ps : List Piece) × Produces form text.now ps) }
{
    let told = scan(form, text);
    told.whole
        && match form {
            Form::DomainSpec => told.expands || endings::ends_in_label(text),
            Form::ModifierValue | Form::Explanation => true,
        }
}

// Whether a text has a p macro.
pub fn uses_p(form: Form, text: &[u8]) -> bool
    ensures { result ≡ uses_p form text.now }
{
    scan(form, text).asks
}

// What an expansion is given.
#[derive(Clone, Copy)]
pub struct Given<'a> {
    pub sender: &'a [u8],
    pub helo: &'a [u8],
    pub receiver: &'a [u8],
    pub domain: &'a [u8],
    pub p: &'a [u8],
    pub client: Address,
    pub seconds: u64,
}

// Why a text isn't expanded.
#[derive(Clone, Copy, PartialEq, Eq)]
pub enum ExpandError {
    Sender,
    Host,
    TooLong,
    NoMacroString,
    NoRoom,
}

impl ExpandError {
    // The refusal's number.
    pub fn number(self) -> u8
        ensures { result ≡ number_of self }
    {
        match self {
            ExpandError::Sender => 20,
            ExpandError::Host => 21,
            ExpandError::TooLong => 22,
            ExpandError::NoMacroString => 40,
            ExpandError::NoRoom => 41,
        }
    }
}

// Measures the text of the pieces, and writes it if it fits.
fn write_fitting(
    form: Form,
    text: &[u8],
    letters: &Letters,
    out: &mut [u8],
) -> Result<usize, ExpandError>
    ensures { Says (fitted (text_of (values_of letters.now) (pieces form text.now).list) (length out.old)) result out.old out.new }
{
    let mut scratch = [0u8; 1];
    let mut measured = Writer::new(&mut scratch);
    emit::put_text(form, text, letters, &mut measured);
    if out.len() < measured.at {
        return Err(ExpandError::NoRoom);
    }
    let mut w = Writer::new(out);
    emit::put_text(form, text, letters, &mut w);
    Ok(w.at)
}

// Measures the expansion of a text's pieces, and writes it if it fits; the values are not tested. The values of letters that aren't given stand one after the
// other in 460 bytes: the sender up to 331, then the address, its family, its readable form and the time up to 63, 7, 39 and 20.
pub fn write_expansion(
    form: Form,
    text: &[u8],
    given: &Given,
    out: &mut [u8],
) -> Result<usize, ExpandError>
    requires { length given.now.sender.now ≤ 320 }
    ensures { Says (fitted (text_of (letters_of (given_of given.now)) (pieces form text.now).list) (length out.old)) result out.old out.new }
{
    let client = address::as_client(given.client);
    let domain = values::sender_domain(given.sender);
    let mut texts = [0u8; 460];
    let mut w = Writer::new(&mut texts);
    values::put_local(given.sender, &mut w);
    let local_end = w.at;
    w.put(b'@');
    w.put_all(domain);
    let sender_end = w.at;
    address_text::put_dotted(client, &mut w);
    let address_end = w.at;
    address_text::put_family(client, &mut w);
    let family_end = w.at;
    address_text::put_readable(client, &mut w);
    let readable_end = w.at;
    address_text::put_decimal(given.seconds, &mut w);
    let time_end = w.at;
    let letters = Letters {
        s: bytes::part(&texts, 0, sender_end),
        l: bytes::part(&texts, 0, local_end),
        o: domain,
        d: given.domain,
        i: bytes::part(&texts, sender_end, address_end),
        p: given.p,
        v: bytes::part(&texts, address_end, family_end),
        h: given.helo,
        c: bytes::part(&texts, family_end, readable_end),
        r: values::receiver_name(given.receiver),
        t: bytes::part(&texts, readable_end, time_end),
    };
    write_fitting(form, text, &letters, out)
}

// Expands a text of a form: 20, 21, 22, 40, 41, or its expansion at the front of the buffer.
pub fn expand(form: Form, text: &[u8], given: &Given, out: &mut [u8]) -> Result<usize, ExpandError>
    ensures says { Says (outcome form text.now (given_of given.now) (length out.old)) result out.old out.new }
    ensures answered { Answered form text.now (given_of given.now) result out.old out.new }
{
    if !values::is_sender(given.sender) {
        return Err(ExpandError::Sender);
    }
    if !values::are_hosts(given.helo, given.receiver) {
        return Err(ExpandError::Host);
    }
    if !values::are_short(given.domain, given.p) {
        return Err(ExpandError::TooLong);
    }
    if !read_macro_string(form, text) {
        return Err(ExpandError::NoMacroString);
    }
    write_expansion(form, text, given, out)
}

// Writes the question name of an expansion: over 4,096 bytes is malformed; one trailing dot is dropped; labels leave from the left; lowered.
pub fn question_name(text: &[u8], out: &mut [u8]) -> Option<usize>
    ensures value { result ≡ name_answer (question_name text.now) }
    ensures out_after { out.new ≡ name_buffer (question_name text.now) out.old }
{
    if 4096 < text.len() {
        return None;
    }
    domain::write_lowered(domain::shorten(domain::without_dot(text)), out)
}
