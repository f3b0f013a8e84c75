// The types that an evaluation is said in. Its specs are the rules of evaluation as definitions, and theorems on them.
#![tactic(auto)]

ghost use Rattle.std.specs.Prelude.{◌≡◌, ◌≤◌, length};
ghost use Rattle.macros.specs.Expansion.{given, given_of};
ghost use Rattle.rules.specs.declared.Ending.TheVariants.{Wanting};

use address::Address;
use macros::Given;
use text::spans::Span;

// What a relay tells of a mail: the client's address, the sender, the HELO name, the receiver and the time in seconds. A longer
// sender is refused before an evaluation begins.
#[derive(Clone, Copy)]
pub struct Mail<'a> {
    pub client: Address,
    pub sender: &'a [u8],
    pub helo: &'a [u8],
    pub receiver: &'a [u8],
    pub seconds: u64,
    ghost sender_fits: { length sender.now ≤ 320 },
}

impl<'a> Mail<'a> {
    // What a macro string is expanded with, in a domain and with a value of p.
    pub fn given(&self, domain: &'a [u8], p: &'a [u8]) -> Given<'a>
        ensures value { given_of result ≡ given self.now.sender.now self.now.helo.now self.now.receiver.now domain.now p.now self.now.client self.now.seconds }
        ensures sender_fits { length result.sender.now ≤ 320 }
    {
        Given {
            sender: self.sender,
            helo: self.helo,
            receiver: self.receiver,
            domain,
            p,
            client: self.client,
            seconds: self.seconds,
        }
    }
}

// The lookups begun and the void answers met so far.
#[derive(Clone, Copy, PartialEq, Eq)]
pub struct Counts {
    pub lookups: u8,
    pub voids: u8,
}

// What a check has come to so far: the counts, and the smallest lifetime of the entries consulted, none where no entry was.
#[derive(Clone, Copy, PartialEq, Eq)]
pub struct Progress {
    pub counts: Counts,
    pub life: Option<u32>,
}

// A question without an entry: its kind, by its number in the DNS, and the length of its name, which stands at the front of the name buffer.
#[derive(Clone, Copy, PartialEq, Eq)]
pub struct Wanted {
    pub kind: u16,
    pub length: usize,
}

// What ends a check before its last term: a result by its number, or a question without an entry.
#[derive(Clone, Copy)]
pub enum Ending {
    Result(u8),
    Wanting(Wanted),
}

impl From<Wanted> for Ending {
    ghost from_gives = { λ w e. e ≡ Wanting w };

    fn from(w: Wanted) -> Ending {
        Ending::Wanting(w)
    }
}

// What record lookup comes to: a result; the record that is selected, where its domain's name and its text stand in the table; or no entry for the
// domain's TXT question.
#[derive(Clone, Copy)]
pub enum Selected {
    Ends(u8),
    One { domain: Span, text: Span },
    Missing,
}

// What record lookup comes to, with the lifetime after it.
#[derive(Clone, Copy)]
pub struct LookedUp {
    pub selected: Selected,
    pub life: Option<u32>,
}

// Which record failed: where its domain's name and the argument of its exp, if it has one, stand in the table.
#[derive(Clone, Copy)]
pub struct FailingPlace {
    pub domain: Span,
    pub exp: Option<Span>,
}

// A check's result by its number, and for a fail the record that failed.
#[derive(Clone, Copy)]
pub struct Checked {
    pub value: u8,
    pub failing: Option<FailingPlace>,
}
