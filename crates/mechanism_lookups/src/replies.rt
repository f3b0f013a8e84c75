// What a question of a, mx, ptr or exists comes to: no answer yet, a failed one, a void one, or items.
ghost use Rattle.std.specs.Prelude.{◌≤◌, ◌≡◌};
ghost use Rattle.mechanism_lookups.specs.Steps.{CountsVoid, AskedIs};

use rules::{Counts, Ending, Progress};
use text::bytes;

// A question's answer: it failed; it is void, which is counted; or its items.
#[derive(Clone, Copy)]
pub enum Asked<'a> {
    Failed,
    Void,
    Items(&'a [u8]),
}

// A void answer is counted, and the third ends the check.
#[tactic(auto, using(crate::proofs::Laws::Replies::void_few, crate::proofs::Laws::Replies::void_third))]
fn count_void(counts: &mut Counts) -> Result<(), Ending>
    requires { counts.old.voids ≤ 2 }
    ensures { CountsVoid counts.old counts.new result }
{
    counts.voids += 1;
    if counts.voids < 3 {
        Ok(())
    } else {
        Err(Ending::Result(6))
    }
}

// Asks a question: without an entry its name is written, and a void answer is counted.
pub fn ask<'a>(
    table: &'a [u8],
    kind: u16,
    name: &[u8],
    progress: &mut Progress,
    out: &mut [u8],
) -> Result<Asked<'a>, Ending>
    requires { progress.old.counts.voids ≤ 2 }
    ensures { AskedIs table.now kind name.now progress.old progress.new result out.old out.new }
{
    let found = client_match::look_up(table, kind, name, progress, out)?;
    if found.status == 2 {
        return Ok(Asked::Failed);
    }
    let items = bytes::part(table, found.start, found.end);
    if items.len() == 0 {
        count_void(&mut progress.counts)?;
        return Ok(Asked::Void);
    }
    Ok(Asked::Items(items))
}
