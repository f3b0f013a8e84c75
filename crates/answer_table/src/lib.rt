// The answer table: its check, in either layout, and lookup in it.
#![tactic(auto)]

ghost use Rattle.std.specs.Prelude.{◌≡◌, ◌≤◌, ◌<◌, length, is_some};
ghost use Rattle.answer_table.specs.Numbers.{reported};
ghost use Rattle.answer_table.specs.Answers.{TableAnswersIn, TableAnswers};
ghost use Rattle.answer_table.specs.Lookup.{lookup, Finds};
ghost use Rattle.answer_table.specs.Marks.{Covered, CoveredAfter};
ghost use Rattle.answer_table.specs.Reader.{entries_of, find_in, find_at, found_items, step_at, check_in, check_table};

use marks::Marks;

pub mod entries;
pub mod items;
mod marks;

// The layouts of a table: 01's, without lifetimes, and 02's, in which each entry has one.
#[derive(Clone, Copy, PartialEq, Eq)]
pub enum Layout {
    Old,
    New,
}

// Why a table is refused.
#[derive(Clone, Copy, PartialEq, Eq)]
pub enum TableError {
    // 24: over 65,535 bytes.
    TooLong,
    // 25: the place of an entry that is malformed, or the 513th.
    Malformed(usize),
    // 26: the place of an entry whose kind and name stand before.
    Repeated(usize),
}

// The entry of a kind and a name: its status, its lifetime in seconds and where its items stand. Kinds and statuses are numbers, as in the table, in the
// DNS and for C.
#[derive(Clone, Copy, PartialEq, Eq)]
pub struct Found {
    pub status: u8,
    pub lifetime: u32,
    pub start: usize,
    pub end: usize,
}

// A longer table is refused with 24.
pub const MOST_BYTES: usize = 65535;

// One entry more is refused with 25.
pub const MOST_ENTRIES: usize = 512;

// In a table of more bytes pairs are marked; a smaller one is searched for each.
const SMALL: usize = 512;

// The entry of a kind and a name.
pub fn find(table: &[u8], kind: u16, name: &[u8]) -> Option<Found>
    ensures value { result ≡ find_at table.now kind name.now }
    ensures finds { Finds table.now (lookup kind name.now (entries_of table.now)) result }
{
    find_in(Layout::New, table, kind, name)
}

// The entry of a kind and a name in a table of a layout. `find` is the hot path, for which the layout is known.
#[inline]
fn find_in(layout: Layout, table: &[u8], kind: u16, name: &[u8]) -> Option<Found>
    ensures { result ≡ find_in layout table.now kind name.now }
{
    let head = entries::header_size(layout);
    // By places and not `for`: a step is an entry's own size.
    let mut at = 0;
    while at < table.len() {
        let rest = &table[at..];
        let header = entries::read_header(layout, rest)?;
        let named = head + header.name as usize;
        if entries::is_pair(header.kind, &rest[head..named], kind, name) {
            return Some(Found {
                status: header.status,
                lifetime: entries::lifetime(layout, rest),
                start: at + named,
                end: at + header.size,
            });
        }
        at += header.size;
    }
    None
}

// The items of the entry that was found, as a part of the table; nothing where none was found.
pub fn found_items(table: &[u8], found: Option<Found>) -> &[u8]
    ensures { result.now ≡ found_items table.now found }
{
    match found {
        Some(entry) => table.get(entry.start..entry.end).unwrap_or(&[]),
        None => &[],
    }
}

// Whether an entry of a kind and a name stands in a table of a layout: the check's search, which needs no place and no lifetime. Kept out of its caller: that
// is then put into the check, and a small table's `None` isn't stored as large as marks are.
#[inline(never)]
fn stands_in(layout: Layout, table: &[u8], kind: u16, name: &[u8]) -> bool
    ensures { result ≡ is_some (find_in layout table.now kind name.now) }
{
    let head = entries::header_size(layout);
    // By places and not `for`: a step is an entry's own size.
    let mut at = 0;
    while at < table.len() {
        let rest = &table[at..];
        let Some(header) = entries::read_header(layout, rest) else {
            return false;
        };
        let named = head + header.name as usize;
        if entries::is_pair(header.kind, &rest[head..named], kind, name) {
            return true;
        }
        at += header.size;
    }
    false
}

// The entry at a place in the check: the place after it, or why the table is refused. The marks are of the entries before it, and then of it too.
fn step_at(
    layout: Layout,
    table: &[u8],
    at: usize,
    marks: &mut Option<Marks>,
) -> Result<usize, TableError>
    requires { (at ≤ length table.now) × Covered layout table.now at marks.old }
    ensures value { result ≡ step_at layout table.now at }
    ensures covered_after { CoveredAfter layout table.now result marks.new }
{
    let rest = &table[at..];
    let Some(header) = entries::read_header(layout, rest) else {
        return Err(TableError::Malformed(at));
    };
    let head = entries::header_size(layout);
    let named = head + header.name as usize;
    let name = &rest[head..named];
    if !entries::is_entry(header.kind, header.status, name, &rest[named..header.size]) {
        return Err(TableError::Malformed(at));
    }
    if !marks::is_new(marks, header.kind, name)
        && stands_in(layout, &table[..at], header.kind, name)
    {
        return Err(TableError::Repeated(at));
    }
    Ok(at + header.size)
}

// The entries of a table, one after the other: how many there are, or the earlier of 25 and 26 with its place.
fn check_entries(
    layout: Layout,
    table: &[u8],
    marks: &mut Option<Marks>,
) -> Result<usize, TableError>
    requires { (length table.now ≤ 65535) × Covered layout table.now 0 marks.old }
    ensures { result ≡ check_in layout table.now }
{
    // By places and not `for`: a step is an entry's own size.
    let mut at = 0;
    let mut count = 0;
    while at < table.len() {
        if count == MOST_ENTRIES {
            return Err(TableError::Malformed(at));
        }
        at = step_at(layout, table, at, marks)?;
        count += 1;
    }
    Ok(count)
}

// Checks a table of a layout: the number of its entries; or 24, then the earlier of 25 and 26 with its place. The pairs of a table of over 512 bytes are marked.
pub fn check_table_in(layout: Layout, table: &[u8]) -> Result<usize, TableError>
    ensures value { result ≡ check_in layout table.now }
    ensures table_answers_in { TableAnswersIn layout table.now (reported result) }
{
    if MOST_BYTES < table.len() {
        return Err(TableError::TooLong);
    }
    let mut marks = if SMALL < table.len() {
        Some(Marks::new())
    } else {
        None
    };
    check_entries(layout, table, &mut marks)
}

// Checks a table.
pub fn check_table(table: &[u8]) -> Result<usize, TableError>
    ensures value { result ≡ check_table table.now }
    ensures table_answers { TableAnswers table.now (reported result) }
{
    check_table_in(Layout::New, table)
}
