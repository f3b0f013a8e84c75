// The value of p, and the name that a domain-spec makes.
#![tactic(auto)]

ghost use Rattle.std.specs.Prelude.{◌≤◌, ◌≡◌, length};
ghost use Rattle.answer_table.specs.Reader.{items_of};
ghost use Rattle.macros.specs.Question.{question_name};
ghost use Rattle.macros.specs.declared.Form.TheVariants.{DomainSpec};
ghost use Rattle.rules.specs.Tree.{items, ask};
ghost use Rattle.rules.specs.Mechanisms.{p_value, p_reply, expansion, target, target_or};
ghost use Rattle.rules.specs.Outcomes.{mail_in, FindsP, NamingIs, Targets};
ghost use Rattle.target_name.specs.Choosing.{later_choice, choice_with, choice_value, valid, FindsValid, p_for, spec_of};

use address::Address;
use answer_table::items::Items;
use macros::Form;
use rules::{Mail, Progress, Wanted};
use text::bytes::Class;
use text::writing::Writer;
use text::{bytes, words};

// Which of the names that are validated so far p takes: the current domain, the first below it, the first, or none yet. Four ways, by rank; none is an
// error.
#[derive(Clone, Copy)]
enum Choice<'a> {
    Current,
    Below(&'a [u8]),
    First(&'a [u8]),
    Nobody,
}

// The choice after one more validated name, which is not the current domain.
fn later_choice<'a>(choice: Choice<'a>, below: bool, name: &'a [u8]) -> Choice<'a>
    ensures { result ≡ later_choice choice.entry below name.entry }
{
    match choice {
        Choice::Current => choice,
        Choice::Below(_) => choice,
        Choice::First(_) if !below => choice,
        Choice::Nobody if !below => Choice::First(name),
        _ => Choice::Below(name),
    }
}

// The choice after one more validated name.
fn choose<'a>(choice: Choice<'a>, domain: &[u8], name: &'a [u8]) -> Choice<'a>
    ensures { result ≡ choice_with choice.entry domain.now name.entry }
{
    if name == domain {
        return Choice::Current;
    }
    later_choice(choice, domain::at_or_below(name, domain), name)
}

// The value that the last choice is.
fn value_of<'a>(choice: Choice<'a>, domain: &'a [u8]) -> &'a [u8]
    ensures { result.now ≡ choice_value choice.entry domain.now }
{
    match choice {
        Choice::Current => domain,
        Choice::Below(name) => name,
        Choice::First(name) => name,
        Choice::Nobody => b"unknown",
    }
}

// Whether a name's addresses include the client.
fn validate(
    client: Address,
    table: &[u8],
    name: &[u8],
    progress: &mut Progress,
    out: &mut [u8],
) -> Result<bool, Wanted>
    ensures { FindsValid table.now (valid client progress.old.counts name.now) progress.old progress.new result out.old out.new }
{
    let kind = client_match::address_kind(client);
    let found = client_match::look_up(table, kind, name, progress, out)?;
    let addresses = bytes::part(table, found.start, found.end);
    Ok(client_match::includes_client(client, found.status, addresses))
}

// The value of p, once its names are known: the first 10 items.
fn choose_name<'a>(
    client: Address,
    table: &[u8],
    domain: &'a [u8],
    names: &'a [u8],
    progress: &mut Progress,
    out: &mut [u8],
) -> Result<&'a [u8], Wanted>
    ensures { FindsP table.now (p_reply client domain.now progress.old.counts (items (items_of names.now))) progress.old progress.new result out.old out.new }
{
    let mut choice = Choice::Nobody;
    for name in Items::new(names).take(10) {
        if validate(client, table, name, progress, out)? {
            choice = choose(choice, domain, name);
        }
    }
    Ok(value_of(choice, domain))
}

// The value of p by the name that its first question asks.
fn ask_names<'a>(
    client: Address,
    table: &'a [u8],
    domain: &'a [u8],
    name: &[u8],
    progress: &mut Progress,
    out: &mut [u8],
) -> Result<&'a [u8], Wanted>
    ensures { FindsP table.now (ask 12 name.now progress.old.counts (p_reply client domain.now progress.old.counts)) progress.old progress.new result out.old out.new }
{
    let found = client_match::look_up(table, 12, name, progress, out)?;
    if found.status == 2 {
        return Ok(b"unknown");
    }
    let names = bytes::part(table, found.start, found.end);
    choose_name(client, table, domain, names, progress, out)
}

// The value of p for a current domain.
pub fn find_p<'a>(
    client: Address,
    table: &'a [u8],
    domain: &'a [u8],
    progress: &mut Progress,
    out: &mut [u8],
) -> Result<&'a [u8], Wanted>
    ensures { FindsP table.now (p_value client domain.now progress.old.counts) progress.old progress.new result out.old out.new }
{
    let mut name = [0u8; 72];
    let mut w = Writer::new(&mut name);
    address_text::put_reversed_name(client, &mut w);
    let n = w.at;
    ask_names(client, table, domain, &name[..n], progress, out)
}

// The value of p that a text of a form is expanded with: it is asked for only where the text uses it.
pub fn find_p_for<'a>(
    client: Address,
    table: &'a [u8],
    domain: &'a [u8],
    form: Form,
    text: &[u8],
    progress: &mut Progress,
    out: &mut [u8],
) -> Result<&'a [u8], Wanted>
    ensures { FindsP table.now (p_for client domain.now form text.now progress.old.counts) progress.old progress.new result out.old out.new }
{
    if macros::uses_p(form, text) {
        return find_p(client, table, domain, progress, out);
    }
    Ok(b"")
}

// The question name that a domain-spec makes with a value of p, at the front of `to`.
fn write_target(mail: &Mail, domain: &[u8], spec: &[u8], p: &[u8], to: &mut [u8]) -> Option<usize>
    requires { 253 ≤ length to.old }
    ensures { NamingIs (question_name (expansion (mail_in mail.now) domain.now DomainSpec spec.now p.now)) result to.new }
{
    let mut text = [0u8; 4096];
    let given = mail.given(domain, p);
    match macros::write_expansion(Form::DomainSpec, spec, &given, &mut text) {
        Ok(n) => macros::question_name(&text[..n], to),
        Err(_) => None,
    }
}

// The question name that a domain-spec makes, at the front of `to`. One without macros is its own expansion.
pub fn make_target(
    mail: &Mail,
    table: &[u8],
    domain: &[u8],
    spec: &[u8],
    to: &mut [u8],
    progress: &mut Progress,
    out: &mut [u8],
) -> Result<Option<usize>, Wanted>
    requires { 253 ≤ length to.old }
    ensures { Targets table.now (target (mail_in mail.now) domain.now spec.now progress.old.counts) progress.old progress.new result to.new out.old out.new }
{
    if words::every(spec, Class::MacroLiteral) {
        return Ok(macros::question_name(spec, to));
    }
    let p = find_p_for(
        mail.client,
        table,
        domain,
        Form::DomainSpec,
        spec,
        progress,
        out,
    )?;
    Ok(write_target(mail, domain, spec, p, to))
}

// The same for a, mx and ptr: the current domain where no domain-spec is given.
pub fn make_target_or(
    mail: &Mail,
    table: &[u8],
    domain: &[u8],
    spec: Option<&[u8]>,
    to: &mut [u8],
    progress: &mut Progress,
    out: &mut [u8],
) -> Result<Option<usize>, Wanted>
    requires { (length domain.now ≤ 253) × (253 ≤ length to.old) }
    ensures { Targets table.now (target_or (mail_in mail.now) domain.now (spec_of spec.entry) progress.old.counts) progress.old progress.new result to.new out.old out.new }
{
    let Some(spec) = spec else {
        client_match::put_name(domain, to);
        return Ok(Some(domain.len()));
    };
    make_target(mail, table, domain, spec, to, progress, out)
}
