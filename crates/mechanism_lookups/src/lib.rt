// The questions of a, mx, ptr and exists once their target is known, and whether their answers match.
#![tactic(auto)]

ghost use Rattle.std.specs.Prelude.{◌≤◌, take};
ghost use Rattle.rules.specs.Mechanisms.{no, own_question, ask_a, ask_exists, ask_mx, most_names, ask_names, ask_ptr};
ghost use Rattle.rules.specs.Outcomes.{Steps};

use address::Address;
use replies::Asked;
use rules::{Ending, Progress};
use text::writing::Writer;

mod hosts;
mod names;
mod replies;

// a, and a host of mx: the address question of the client's family.
pub fn ask_a(
    client: Address,
    length: usize,
    table: &[u8],
    name: &[u8],
    progress: &mut Progress,
    out: &mut [u8],
) -> Result<bool, Ending>
    requires { progress.old.counts.voids ≤ 2 }
    ensures { Steps table.now (ask_a client length progress.old.counts name.now) progress.old progress.new result out.old out.new }
{
    match replies::ask(
        table,
        client_match::address_kind(client),
        name,
        progress,
        out,
    )? {
        Asked::Failed => Err(Ending::Result(5)),
        Asked::Void => Ok(false),
        Asked::Items(items) => Ok(client_match::any_matches(client, length, items)),
    }
}

// exists: always the A question.
pub fn ask_exists(
    table: &[u8],
    name: &[u8],
    progress: &mut Progress,
    out: &mut [u8],
) -> Result<bool, Ending>
    requires { progress.old.counts.voids ≤ 2 }
    ensures { Steps table.now (ask_exists progress.old.counts name.now) progress.old progress.new result out.old out.new }
{
    match replies::ask(table, 1, name, progress, out)? {
        Asked::Failed => Err(Ending::Result(5)),
        Asked::Void => Ok(false),
        Asked::Items(_) => Ok(true),
    }
}

// mx: the MX question, then the hosts' addresses by preference.
pub fn ask_mx(
    client: Address,
    length: usize,
    table: &[u8],
    name: &[u8],
    progress: &mut Progress,
    out: &mut [u8],
) -> Result<bool, Ending>
    requires { progress.old.counts.voids ≤ 2 }
    ensures { Steps table.now (ask_mx client length progress.old.counts name.now) progress.old progress.new result out.old out.new }
{
    match replies::ask(table, 15, name, progress, out)? {
        Asked::Failed => Err(Ending::Result(5)),
        Asked::Void => Ok(false),
        Asked::Items(items) => hosts::ask_items(client, length, table, items, progress, out),
    }
}

// ptr, with the name that has the client's names.
fn ask_pointers(
    client: Address,
    table: &[u8],
    name: &[u8],
    target: &[u8],
    progress: &mut Progress,
    out: &mut [u8],
) -> Result<bool, Ending>
    requires { progress.old.counts.voids ≤ 2 }
    ensures { Steps table.now (own_question no progress.old.counts 12 name.now (λ ds. ask_names client target.now (take most_names ds) progress.old.counts)) progress.old progress.new result out.old out.new }
{
    match replies::ask(table, 12, name, progress, out)? {
        Asked::Failed => Ok(false),
        Asked::Void => Ok(false),
        Asked::Items(items) => names::ask_names(client, table, items, target, progress, out),
    }
}

// ptr: the client's names, validated; `target` is the name that one of them must be or be below.
pub fn ask_ptr(
    client: Address,
    table: &[u8],
    target: &[u8],
    progress: &mut Progress,
    out: &mut [u8],
) -> Result<bool, Ending>
    requires { progress.old.counts.voids ≤ 2 }
    ensures { Steps table.now (ask_ptr client progress.old.counts target.now) progress.old progress.new result out.old out.new }
{
    let mut reversed = [0u8; 72];
    let mut w = Writer::new(&mut reversed);
    address_text::put_reversed_name(client, &mut w);
    let n = w.at;
    ask_pointers(client, table, &reversed[..n], target, progress, out)
}
