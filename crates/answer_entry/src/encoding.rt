// Entries written into an answer table, whether they are well-formed or not.
ghost use Rattle.text.specs.Writing.{Writes};
ghost use Rattle.answer_entry.specs.Encoding.{four_bytes, low_bytes, head_bytes, written_bytes};

use crate::NewEntry;
use text::writing::Writer;

// The two bytes of a number below 65,536, the lower one first; of a larger one its two low bytes.
#[tactic(auto, unfolding(crate::specs::Encoding::low_bytes))]
pub fn put_number(n: usize, out: &mut Writer)
    ensures { Writes (low_bytes n) out.old out.new }
{
    out.put_all(&((n % 65536) as u16).to_le_bytes());
}

// The four bytes of a lifetime, the lowest one first.
#[tactic(auto, unfolding(crate::specs::Encoding::four_bytes))]
pub fn put_lifetime(lifetime: u32, out: &mut Writer)
    ensures { Writes (four_bytes lifetime) out.old out.new }
{
    out.put_all(&lifetime.to_le_bytes());
}

// The kind, status, lifetime and name of an entry, which stand between its length and its items.
pub fn put_head(entry: &NewEntry, out: &mut Writer)
    ensures { Writes (head_bytes entry.now.kind entry.now.status entry.now.lifetime entry.now.name.now) out.old out.new }
{
    put_number(entry.kind as usize, out);
    out.put(entry.status);
    put_lifetime(entry.lifetime, out);
    out.put((entry.name.len() % 256) as u8);
    out.put_all(entry.name);
}

// An entry.
pub fn put_entry(entry: &NewEntry, out: &mut Writer)
    ensures { Writes (written_bytes entry.now.kind entry.now.status entry.now.lifetime entry.now.name.now entry.now.items.now) out.old out.new }
{
    put_number(8 + entry.name.len() % 256 + entry.items.len() % 65536, out);
    put_head(entry, out);
    out.put_all(entry.items);
}
