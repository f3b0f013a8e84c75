// An entry added to an answer table in a lent buffer.
#![tactic(auto)]

ghost use Rattle.std.specs.Prelude.{◌≤◌, ◌≡◌, map, length};
ghost use Rattle.text.specs.Bytes.{lower};
ghost use Rattle.domain.specs.Names.{most_name};
ghost use Rattle.answer_table.specs.Answers.{most_bytes};
ghost use Rattle.answer_entry.specs.Appending.{Appends};
ghost use Rattle.answer_entry.specs.Numbers.{outcome_of};
ghost use Rattle.answer_entry.specs.Fitting.{Checked, is_fit};
ghost use Rattle.answer_entry.specs.declared.AppendError.TheVariants.{Table};

use answer_table::{Layout, MOST_BYTES, MOST_ENTRIES, TableError, entries};
use domain::MOST_NAME;
use text::writing::Writer;

pub mod encoding;

// An entry as it is given: any kind, status and lifetime, a name, and the items' bytes as they stand in an entry. Kind and status are numbers, since the
// unfit ones, which are refused, are numbers too.
#[derive(Clone, Copy)]
pub struct NewEntry<'a> {
    pub kind: u16,
    pub status: u8,
    pub lifetime: u32,
    pub name: &'a [u8],
    pub items: &'a [u8],
}

// Why an entry isn't appended.
#[derive(Clone, Copy, PartialEq, Eq)]
pub enum AppendError {
    // 24 to 26: the table is refused; 24 also where its length is beyond the buffer.
    Table(TableError),
    // 64: the kind and name are in the table.
    InTable,
    // 65: the new entry or table breaks the rules, or exceeds the buffer.
    Unfit,
}

impl From<TableError> for AppendError {
    ghost from_gives = { λ e r. r ≡ Table e };

    fn from(e: TableError) -> AppendError {
        AppendError::Table(e)
    }
}

// Whether a table of a size and with so many entries can take an entry, in a buffer with room for so many bytes.
fn is_fit(entry: &NewEntry, size: usize, count: usize, room: usize) -> bool
    requires { (size ≤ most_bytes) × (length entry.now.name.now ≤ most_name) }
    ensures { result ≡ is_fit entry.now.kind entry.now.status entry.now.name.now entry.now.items.now size count room }
{
    let end = size + entries::header_size(Layout::New) + entry.name.len() + entry.items.len();
    // An early answer: the bounds are tests of numbers, and what follows reads the entry.
    if MOST_BYTES < end || room < end || MOST_ENTRIES <= count {
        return false;
    }
    entries::is_entry(entry.kind, entry.status, entry.name, entry.items)
}

// Appends an entry, with its name in lower case already, to a table that is accepted with so many entries.
fn append_lowered(
    entry: &NewEntry,
    table: &mut [u8],
    size: usize,
    count: usize,
) -> Result<usize, AppendError>
    requires { Checked table.old size count × (length entry.now.name.now ≤ most_name) }
    ensures { Appends entry.now.kind entry.now.status entry.now.lifetime entry.now.name.now entry.now.items.now table.old size
        (outcome_of result) table.new }
{
    if answer_table::find(&table[..size], entry.kind, entry.name).is_some() {
        return Err(AppendError::InTable);
    }
    if !is_fit(entry, size, count, table.len()) {
        return Err(AppendError::Unfit);
    }
    let mut out = Writer {
        out: table,
        at: size,
    };
    encoding::put_entry(entry, &mut out);
    Ok(out.at)
}

// Appends an entry to a table that is accepted with so many entries. No entry has a name of over 253 bytes.
fn append_checked(
    entry: &NewEntry,
    table: &mut [u8],
    size: usize,
    count: usize,
) -> Result<usize, AppendError>
    requires { Checked table.old size count }
    ensures { Appends entry.now.kind entry.now.status entry.now.lifetime (map lower entry.now.name.now) entry.now.items.now table.old size
        (outcome_of result) table.new }
{
    if MOST_NAME < entry.name.len() {
        return Err(AppendError::Unfit);
    }
    let mut lowered = [0u8; MOST_NAME];
    let mut out = Writer::new(&mut lowered);
    out.put_lowered(entry.name);
    let n = out.at;
    let entry = NewEntry {
        name: &lowered[..n],
        ..*entry
    };
    append_lowered(&entry, table, size, count)
}

// Appends an entry to the table in the first bytes of a lent buffer; answers the length of the new table. The name is put in lower case. The
// table is checked before and accepted after, and a refusal leaves the buffer as it is.
pub fn append_entry(entry: &NewEntry, table: &mut [u8], size: usize) -> Result<usize, AppendError>
    ensures { Appends entry.now.kind entry.now.status entry.now.lifetime (map lower entry.now.name.now) entry.now.items.now table.old size
        (outcome_of result) table.new }
{
    if table.len() < size {
        return Err(AppendError::Table(TableError::TooLong));
    }
    let count = answer_table::check_table(&table[..size])?;
    append_checked(entry, table, size, count)
}
