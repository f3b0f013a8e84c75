// The items of an entry: their forms, and one after the other as parts of the table.
ghost use Rattle.std.specs.Prelude.{◌≡◌, ◌≤◌, ◌-◌, List, ℕ, length, drop};
ghost use Rattle.std.specs.Iterator.{YieldsFirstRef, at_most, item_count};
ghost use Rattle.answer_table.specs.Layout.{is_mail_exchange, is_item};
ghost use Rattle.answer_table.specs.Reader.{number, first_item, items_of, next_item, items_fit};
ghost use Rattle.answer_table.specs.Walking.{GivesPlace};

use std::marker::Model;
use text::bytes;
use text::spans::Span;

// The items that are left of an entry's, which a contract sees as the list of them.
#[derive(Drop)]
pub struct Items<'a> {
    rest: &'a [u8],
}

impl<'a> Model for Items<'a> {
    ghost Value = { List (List ℕ) };

    ghost view = { λ s. items_of s.rest.now };
}

impl<'a> Items<'a> {
    // All items of an entry, from its items' bytes.
    pub fn new(items: &'a [u8]) -> Items<'a>
        ensures value { result ≡ items_of items.now }
        ensures few { length (items_of items.now) ≤ length items.now }
    {
        Items { rest: items }
    }
}

impl<'a> Iterator for Items<'a> {
    type Item = &'a [u8];

    ghost next_gives = { YieldsFirstRef (λ left. left) };

    ghost remaining = { item_count (λ left. left) };

    fn next(&mut self) -> Option<&'a [u8]> {
        let rest = self.rest;
        if rest.is_empty() {
            return None;
        }
        let end = 2 + number(rest) as usize;
        self.rest = bytes::part(rest, end, rest.len());
        Some(bytes::part(rest, 2, end))
    }
}

// The places of the items that are left of an entry's: where the bytes of each begin and end among the items'.
#[derive(Drop)]
pub struct Places<'a> {
    pub items: &'a [u8],
    pub at: usize,
}

impl<'a> Places<'a> {
    // The places of all items of an entry, from its items' bytes.
    pub fn new(items: &'a [u8]) -> Places<'a>
        ensures items { result.items.now ≡ items.now }
        ensures at { result.at ≡ 0 }
    {
        Places { items, at: 0 }
    }
}

impl<'a> Iterator for Places<'a> {
    type Item = Span;

    ghost next_gives = { GivesPlace };

    ghost remaining = { λ s. at_most (length s.items.now - s.at) };

    fn next(&mut self) -> Option<Span> {
        if self.items.len() <= self.at {
            return None;
        }
        let from = self.at + 2;
        self.at = next_item(self.items, self.at);
        Some(Span { from, to: self.at })
    }
}

// The 2-byte number at the front, little-endian.
#[tactic(auto, unfolding(crate::specs::Reader::number))]
pub fn number(s: &[u8]) -> u16
    ensures { result ≡ number s.now }
{
    u16::from_le_bytes([bytes::peek(s, 0), bytes::peek(s, 1)])
}

// Whether s is an MX item.
#[tactic(auto, using(text::proofs::Laws::Tests::ways), unfolding(crate::specs::Layout::is_mail_exchange))]
fn is_mail_exchange(s: &[u8]) -> bool
    ensures { result ≡ is_mail_exchange s.now }
{
    s.len() == 2 || 2 <= s.len() && domain::is_table_name(&s[2..])
}

// Whether s is an item of the kind.
#[tactic(auto, using(text::proofs::Laws::Tests::ways), unfolding(crate::specs::Layout::is_item))]
fn is_item(kind: u16, s: &[u8]) -> bool
    ensures { result ≡ is_item kind s.now }
{
    match kind {
        1 => s.len() == 4,
        12 => domain::is_table_name(s),
        15 => is_mail_exchange(s),
        28 => s.len() == 16,
        _ => s.len() <= 4096,
    }
}

// Whether s is items of the kind, end to end.
pub fn items_fit(kind: u16, s: &[u8]) -> bool
    ensures { result ≡ items_fit kind s.now }
{
    // By what is left and not `for`: an item that is cut off fails here, and `Items` ends there.
    let mut rest = s;
    while !rest.is_empty() {
        let end = 2 + number(rest) as usize;
        if rest.len() < end || !is_item(kind, &rest[2..end]) {
            return false;
        }
        rest = &rest[end..];
    }
    true
}

// The item that begins at a place of the items, as a part of them.
pub fn item(items: &[u8], at: usize) -> &[u8]
    ensures { result.now ≡ first_item (drop at items.now) }
{
    let rest = bytes::part(items, at, items.len());
    bytes::part(rest, 2, 2 + number(rest) as usize)
}

// The place just after the item that begins at a place.
#[tactic(auto, using(text::proofs::Laws::Spans::rest_part), unfolding(crate::specs::Reader::next_item))]
pub fn next_item(items: &[u8], at: usize) -> usize
    ensures { result ≡ next_item items.now at }
{
    if items.len() <= at {
        return items.len();
    }
    let end = at + 2 + number(&items[at..]) as usize;
    end.min(items.len())
}

// An MX item's preference.
pub fn preference(item: &[u8]) -> u16
    ensures { result ≡ number item.now }
{
    number(item)
}

// An MX item's host, which is empty where it names none.
#[tactic(auto, using(text::proofs::Laws::Spans::rest_part))]
pub fn host(item: &[u8]) -> &[u8]
    ensures { result.now ≡ drop 2 item.now }
{
    bytes::part(item, 2, item.len())
}
