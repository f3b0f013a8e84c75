// What the table's answers say of a client, their lifetimes, and the name of a question that has no answer.
#![tactic(auto)]

ghost use Rattle.std.specs.Prelude.{◌≡◌};
ghost use Rattle.text.specs.Writing.{overwritten};
ghost use Rattle.answer_table.specs.Reader.{items_of};
ghost use Rattle.rules.specs.Tree.{sooner};
ghost use Rattle.rules.specs.Tables.{reply_by};
ghost use Rattle.rules.specs.Outcomes.{LooksUp};
ghost use Rattle.rules.specs.Mechanisms.{address_kind, width, item_matches, any_matches, includes_client};

use address::Address;
use answer_table::Found;
use answer_table::items::Items;
use rules::{Progress, Wanted};
use text::writing::Writer;

// The kind of the address question of the client's family: A or AAAA.
pub fn address_kind(client: Address) -> u16
    ensures { result ≡ address_kind client }
{
    match client {
        Address::IPv4(_) => 1,
        Address::IPv6(_, _) => 28,
    }
}

// The whole width of the client's address.
pub fn width(client: Address) -> usize
    ensures { result ≡ width client }
{
    match client {
        Address::IPv4(_) => 32,
        Address::IPv6(_, _) => 128,
    }
}

// Whether an item of an address answer matches the client at a prefix length.
fn item_matches(client: Address, length: usize, octets: Option<Address>) -> bool
    ensures { result ≡ item_matches client length octets }
{
    let Some(network) = octets else {
        return false;
    };
    address::matches(client, network, length)
}

// Whether any item of an address answer matches the client at a prefix length.
pub fn any_matches(client: Address, length: usize, items: &[u8]) -> bool
    ensures { result ≡ any_matches client length (items_of items.now) }
{
    for item in Items::new(items) {
        if item_matches(client, length, address::from_octets(item)) {
            return true;
        }
    }
    false
}

// Whether an address answer, by its status and its items, includes the client.
pub fn includes_client(client: Address, status: u8, items: &[u8]) -> bool
    ensures { result ≡ includes_client client (reply_by status (items_of items.now)) }
{
    status != 2 && any_matches(client, width(client), items)
}

// The smallest lifetime so far, and then that of one entry more.
pub fn sooner(life: Option<u32>, lifetime: u32) -> u32
    ensures { Some result ≡ sooner life lifetime }
{
    match life {
        Some(so_far) => so_far.min(lifetime),
        None => lifetime,
    }
}

// Writes a name at the front of a name buffer.
pub fn put_name(name: &[u8], out: &mut [u8])
    ensures { out.new ≡ overwritten name.now out.old }
{
    let mut w = Writer::new(out);
    w.put_all(name);
}

// Asks a question of the table: its entry, whose lifetime is taken in. Without one the question is wanted, and its name is written.
pub fn look_up(
    table: &[u8],
    kind: u16,
    name: &[u8],
    progress: &mut Progress,
    out: &mut [u8],
) -> Result<Found, Wanted>
    ensures { LooksUp table.now kind name.now progress.old progress.new result out.old out.new }
{
    let Some(found) = answer_table::find(table, kind, name) else {
        put_name(name, out);
        return Err(Wanted {
            kind,
            length: name.len(),
        });
    };
    progress.life = Some(sooner(progress.life, found.lifetime));
    Ok(found)
}
