// One entry of the table, in either layout.
ghost use Rattle.std.specs.Prelude.{◌≤◌, ◌≡◌, ◌&&◌, eqb};
ghost use Rattle.text.specs.Lists.{same};
ghost use Rattle.answer_table.specs.Layout.{is_kind, is_status, lifetime_bytes, header_size};
ghost use Rattle.answer_table.specs.Reader.{header_of, lifetime_at, is_entry};

use crate::{Layout, items};
use text::bytes::peek;
use text::words;

// What stands before an entry's name, apart from a lifetime: its length, kind, status and name length.
const HEADER_SIZE: usize = 6;

// The header of an entry: kind, status, length of the name, size of the whole entry. A kind and a status are numbers, as in the table.
#[derive(Clone, Copy, PartialEq, Eq)]
pub struct Header {
    pub kind: u16,
    pub status: u8,
    pub name: u8,
    pub size: usize,
}

// How many bytes of a lifetime stand after an entry's status.
#[tactic(auto, unfolding(crate::specs::Layout::lifetime_bytes))]
fn lifetime_bytes(layout: Layout) -> usize
    ensures value { result ≡ lifetime_bytes layout }
    ensures upper_bound { result ≤ 4 }
{
    match layout {
        Layout::Old => 0,
        Layout::New => 4,
    }
}

// What stands before an entry's name: its length, kind, status, lifetime and name length.
pub fn header_size(layout: Layout) -> usize
    ensures value { result ≡ header_size layout }
    ensures upper_bound { result ≤ 10 }
{
    HEADER_SIZE + lifetime_bytes(layout)
}

// The header of the entry at the front, if a whole one stands there.
pub fn read_header(layout: Layout, s: &[u8]) -> Option<Header>
    ensures { result ≡ header_of layout s.now }
{
    let head = header_size(layout);
    if s.len() < head {
        return None;
    }
    let name = s[head - 1];
    let size = 2 + items::number(s) as usize;
    if s.len() < size || size < head + name as usize {
        return None;
    }
    Some(Header {
        kind: items::number(&s[2..]),
        status: s[4],
        name,
        size,
    })
}

// Whether a kind is one of those that are asked.
#[tactic(auto, using(text::proofs::Laws::Tests::tests), unfolding(crate::specs::Layout::is_kind))]
fn is_kind(kind: u16) -> bool
    ensures { result ≡ is_kind kind }
{
    matches!(kind, 1 | 12 | 15 | 16 | 28 | 99)
}

// Whether a status is answered, failed or no such name.
#[tactic(auto, using(text::proofs::Laws::Tests::tests), unfolding(crate::specs::Layout::is_status))]
fn is_status(status: u8) -> bool
    ensures { result ≡ is_status status }
{
    matches!(status, 0 | 2 | 3)
}

// The lifetime in seconds of the entry at the front, and 0 where the layout has none.
pub fn lifetime(layout: Layout, s: &[u8]) -> u32
    ensures { result ≡ lifetime_at layout s.now }
{
    match layout {
        Layout::Old => 0,
        Layout::New => u32::from_le_bytes([peek(s, 5), peek(s, 6), peek(s, 7), peek(s, 8)]),
    }
}

// Whether an entry's kind and name are a kind and a name.
#[tactic(auto, using(text::proofs::Laws::Tests::ways))]
pub fn is_pair(k: u16, own: &[u8], kind: u16, name: &[u8]) -> bool
    ensures { result ≡ (eqb k kind && same own.now name.now) }
{
    k == kind && words::equal(own, name)
}

// Whether a kind, a status, a name and items' bytes make a well-formed entry, apart from its length.
#[tactic(auto, using(text::proofs::Laws::Tests::ways), unfolding(crate::specs::Reader::is_entry))]
pub fn is_entry(kind: u16, status: u8, name: &[u8], items: &[u8]) -> bool
    ensures { result ≡ is_entry kind status name.now items.now }
{
    is_kind(kind)
        && is_status(status)
        && domain::is_table_name(name)
        && if status == 0 {
            items::items_fit(kind, items)
        } else {
            items.is_empty()
        }
}
