// The mechanisms: what a term comes to that is no include.
#![tactic(auto)]

ghost use Rattle.std.specs.Prelude.{◌≤◌, ◌≡◌, length};
ghost use Rattle.rules.specs.Mechanisms.{counted_step};
ghost use Rattle.rules.specs.Outcomes.{mail_in, Steps};
ghost use Rattle.target_name.specs.Choosing.{spec_of};
ghost use Rattle.mechanisms.specs.Terms.{asker, length_of, given_at, TriedIs};

use address::Address;
use domain::MOST_NAME;
use records::Term;
use rules::{Ending, Mail, Progress};
use text::bytes;
use text::spans::Span;

// A mechanism that asks for a name.
#[derive(Clone, Copy)]
pub enum Question {
    A,
    Mx,
    Ptr,
    Exists,
}

// What a term comes to: whether it matches; or it is an include, whose domain-spec stands in the term's text.
#[derive(Clone, Copy)]
pub enum Tried {
    Matches(bool),
    Include(Span),
}

// The own questions of a mechanism.
fn ask(
    question: Question,
    client: Address,
    prefix: usize,
    table: &[u8],
    name: &[u8],
    progress: &mut Progress,
    out: &mut [u8],
) -> Result<bool, Ending>
    requires { progress.old.counts.voids ≤ 2 }
    ensures { Steps table.now (asker question client prefix progress.old.counts name.now) progress.old progress.new result out.old out.new }
{
    match question {
        Question::A => mechanism_lookups::ask_a(client, prefix, table, name, progress, out),
        Question::Mx => mechanism_lookups::ask_mx(client, prefix, table, name, progress, out),
        Question::Ptr => mechanism_lookups::ask_ptr(client, table, name, progress, out),
        Question::Exists => mechanism_lookups::ask_exists(table, name, progress, out),
    }
}

// a, mx, ptr and exists: counts a lookup, makes the target, and asks.
fn counted_step(
    question: Question,
    prefix: usize,
    mail: &Mail,
    table: &[u8],
    domain: &[u8],
    spec: Option<&[u8]>,
    progress: &mut Progress,
    out: &mut [u8],
) -> Result<bool, Ending>
    requires { (length domain.now ≤ 253) × (progress.old.counts.voids ≤ 2) }
    ensures { Steps table.now (counted_step (mail_in mail.now) domain.now (spec_of spec.entry) (asker question mail.now.client prefix) progress.old.counts) progress.old progress.new result out.old out.new }
{
    if 10 <= progress.counts.lookups {
        return Err(Ending::Result(6));
    }
    progress.counts.lookups += 1;
    let mut to = [0u8; MOST_NAME];
    let Some(n) = target_name::make_target_or(mail, table, domain, spec, &mut to, progress, out)?
    else {
        return Ok(false);
    };
    ask(
        question,
        mail.client,
        prefix,
        table,
        bytes::part(&to, 0, n),
        progress,
        out,
    )
}

// The prefix length of the client's family.
fn length_of(client: Address, four: u8, six: u8) -> usize
    ensures { result ≡ length_of client four six }
{
    match client {
        Address::IPv4(_) => four as usize,
        Address::IPv6(_, _) => six as usize,
    }
}

// The domain-spec of an `a`, `mx` or `ptr`, whose places are equal where it has none.
fn given(w: &[u8], from: usize, to: usize) -> Option<&[u8]>
    ensures { spec_of result ≡ given_at w.now from to }
{
    if from == to {
        None
    } else {
        Some(bytes::part(w, from, to))
    }
}

// What a term comes to. `w` is the term's text.
pub fn try_plain(
    mail: &Mail,
    table: &[u8],
    domain: &[u8],
    w: &[u8],
    term: Term,
    progress: &mut Progress,
    out: &mut [u8],
) -> Result<Tried, Ending>
    requires { (length domain.now ≤ 253) × (progress.old.counts.voids ≤ 2) }
    ensures { TriedIs table.now (mail_in mail.now) domain.now w.now term progress.old progress.new result out.old out.new }
{
    match term {
        Term::All { .. } => Ok(Tried::Matches(true)),
        Term::Include { from, to, .. } => Ok(Tried::Include(Span { from, to })),
        Term::A {
            from,
            to,
            four,
            six,
            ..
        } => {
            let prefix = length_of(mail.client, four, six);
            let spec = given(w, from, to);
            let matches = counted_step(
                Question::A,
                prefix,
                mail,
                table,
                domain,
                spec,
                progress,
                out,
            )?;
            Ok(Tried::Matches(matches))
        }
        Term::Mx {
            from,
            to,
            four,
            six,
            ..
        } => {
            let prefix = length_of(mail.client, four, six);
            let spec = given(w, from, to);
            let matches = counted_step(
                Question::Mx,
                prefix,
                mail,
                table,
                domain,
                spec,
                progress,
                out,
            )?;
            Ok(Tried::Matches(matches))
        }
        Term::Ptr { from, to, .. } => {
            let spec = given(w, from, to);
            let matches = counted_step(Question::Ptr, 0, mail, table, domain, spec, progress, out)?;
            Ok(Tried::Matches(matches))
        }
        Term::Network {
            address,
            length,
            ..
        } => Ok(Tried::Matches(address::matches(mail.client, address, length as usize))),
        Term::Exists { from, to, .. } => {
            let spec = Some(bytes::part(w, from, to));
            let matches = counted_step(
                Question::Exists,
                0,
                mail,
                table,
                domain,
                spec,
                progress,
                out,
            )?;
            Ok(Tried::Matches(matches))
        }
        Term::Redirect { .. } => Ok(Tried::Matches(false)),
        Term::Explanation { .. } => Ok(Tried::Matches(false)),
        Term::Unknown { .. } => Ok(Tried::Matches(false)),
    }
}
