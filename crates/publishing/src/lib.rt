// The house rules: what customers may publish.
#![tactic(auto)]

ghost use Rattle.std.specs.Prelude.{◌≡◌};
ghost use Rattle.publishing.specs.Listing.{number_of, place_of, HouseAnswers};
ghost use Rattle.publishing.specs.Finding.{ListsBreaches};
ghost use Rattle.publishing.specs.declared.HouseError.TheVariants.{Record};

use offences::put_found;
use records::Refusal;
use text::writing::Writer;

mod listing;
mod offences;
mod rows;

// Why a record isn't held against the house rules: its name is too long; it has too many breaches for the rules or for the list; or it isn't read.
#[derive(Clone, Copy)]
pub enum HouseError {
    Name,
    TooMany,
    Record(Refusal),
}

impl HouseError {
    // The refusal's number.
    pub fn number(self) -> u8
        ensures { result ≡ number_of self }
    {
        match self {
            HouseError::Name => 22,
            HouseError::TooMany => 70,
            HouseError::Record(refusal) => refusal.reason.number(),
        }
    }

    // The place of a refusal of record reading; 0 where there is none.
    pub fn place(self) -> usize
        ensures { result ≡ place_of self }
    {
        match self {
            HouseError::Name | HouseError::TooMany => 0,
            HouseError::Record(refusal) => refusal.at,
        }
    }
}

impl From<Refusal> for HouseError {
    ghost from_gives = { λ e r. r ≡ Record e };

    fn from(e: Refusal) -> HouseError {
        HouseError::Record(e)
    }
}

// A longer name is refused.
pub const MOST_NAME: usize = 255;

// More breaches are refused.
pub const MOST_BREACHES: usize = 256;

// The bytes of that many.
pub const MOST_LIST: usize = 768;

// Lists the breaches of a record that was read, and answers how many there are.
fn list_breaches(s: &[u8], first: usize, name: usize, list: &mut [u8]) -> Result<usize, HouseError>
    ensures { ListsBreaches s.now first name list.old list.new result }
{
    let mut found = [0u8; MOST_LIST];
    let mut out = Writer::new(&mut found);
    put_found(s, first, name, &mut out);
    let size = out.at;
    if MOST_LIST.min(list.len()) < size {
        return Err(HouseError::TooMany);
    }
    listing::put_ordered(&found[..size], list);
    Ok(size / 3)
}

// Holds a record with its domain name against the house rules: the breaches are listed, and their number is the answer.
pub fn house_rules(domain: &[u8], s: &[u8], list: &mut [u8]) -> Result<usize, HouseError>
    ensures { HouseAnswers domain.now s.now list.old list.new result }
{
    if MOST_NAME < domain.len() {
        return Err(HouseError::Name);
    }
    let first = records::read_record(s)?;
    list_breaches(s, first, domain.len(), list)
}
