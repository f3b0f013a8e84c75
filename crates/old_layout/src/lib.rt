// A table of the old layout rewritten in the new one: each entry gains a lifetime of 0.
#![tactic(auto)]

ghost use Rattle.text.specs.Writing.{Writes};
ghost use Rattle.old_layout.specs.Rewriting.{Rewrites};
ghost use Rattle.old_layout.specs.Numbers.{outcome_of};
ghost use Rattle.old_layout.specs.Writing.{lengthened, PutsTable};

use answer_entry::encoding;
use answer_table::{Layout, MOST_BYTES, TableError, items};
use text::bytes;
use text::writing::Writer;

// How many bytes of a lifetime each entry gains.
const LIFETIME: usize = 4;

// The entry at the front of an old table, with a lifetime of 0 after its status.
fn put_entry(s: &[u8], out: &mut Writer)
    ensures { Writes (lengthened s.now) out.old out.new }
{
    let n = items::number(s) as usize;
    encoding::put_number(n + LIFETIME, out);
    out.put_all(bytes::part(s, 2, 5));
    encoding::put_lifetime(0, out);
    out.put_all(bytes::part(s, 5, 2 + n));
}

// All entries of an old table, one after the other.
fn put_table(old: &[u8], out: &mut Writer)
    ensures { PutsTable old.now out.old out.new }
{
    // By places and not `for`: a step is an entry's own size.
    let mut at = 0;
    while at < old.len() {
        let rest = &old[at..];
        put_entry(rest, out);
        at += 2 + items::number(rest) as usize;
    }
}

// Rewrites an old table into a lent buffer, with a lifetime of 0 in each entry; answers the length of the new table, or why the old table or the
// new one is refused: 24 also where the new one exceeds the buffer. A refusal leaves the buffer as it is.
pub fn add_lifetimes(old: &[u8], new: &mut [u8]) -> Result<usize, TableError>
    ensures { Rewrites old.now new.old (outcome_of result) new.new }
{
    let count = answer_table::check_table_in(Layout::Old, old)?;
    let end = old.len() + LIFETIME * count;
    if MOST_BYTES < end || new.len() < end {
        return Err(TableError::TooLong);
    }
    let mut out = Writer::new(new);
    put_table(old, &mut out);
    Ok(out.at)
}
