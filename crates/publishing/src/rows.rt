// The networks of a record as rows, for rule (9).
ghost use Rattle.std.specs.Prelude.{◌≡◌};
ghost use Rattle.publishing.specs.Rows.{row_of, PutsRow};

use address::Address;
use duplicates::{MOST_ROWS, Row};
use records::Term;

// The row of a network: a number that tells family and length, and the cleared address.
fn row_of(address: Address, length: u8) -> Row
    ensures { result ≡ row_of address length }
{
    match address::cleared(address, length as usize) {
        Address::IPv4(v) => Row {
            kind: length as u64,
            high: v as u64,
            low: 0,
        },
        Address::IPv6(high, low) => Row {
            kind: 256 + length as u64,
            high,
            low,
        },
    }
}

// Writes the row of a term, if it is a network, after n others.
pub fn put_row(term: Term, n: usize, table: &mut [Row; MOST_ROWS])
    ensures { PutsRow term n table.old table.new }
{
    let Term::Network {
        address,
        length,
        ..
    } = term
    else {
        return;
    };
    if n < MOST_ROWS {
        table[n] = row_of(address, length);
    }
}
