// The check of a domain: its record, the record's terms, include and redirect. These functions call each other; the remaining lookups fall.
ghost use Rattle.std.specs.Prelude.{◌≤◌, ◌≡◌, length};
ghost use Rattle.domain.specs.Normal.{name};
ghost use Rattle.records.specs.Numbers.{said_of};
ghost use Rattle.records.specs.Reader.{read_record};
ghost use Rattle.records.specs.Opening.{argument_in};
ghost use Rattle.rules.specs.Evaluation.{begun_check, include_step, term_step, no_match, try_terms, terms_of, read_outcome, whole};
ghost use Rattle.rules.specs.Outcomes.{mail_in, span_of, Steps, Checks};
ghost use Rattle.evaluation.specs.Checks.{ended_of, sign_of, signed_of, in_table, FitsTable, SelectedAt, Underway, redirected_of, included_now};
ghost use Rattle.records.specs.Reader.{after_version};

use domain::MOST_NAME;
use mechanisms::Tried;
use records::opening::Opening;
use records::{Term, opening};
use rules::{Checked, Ending, FailingPlace, Mail, Progress, Selected, Wanted};
use text::bytes;
use text::spans::Span;

// A result that no record's sign gives.
pub fn ended(value: u8) -> Checked
    ensures { result ≡ ended_of value }
{
    Checked {
        value,
        failing: None,
    }
}

// The sign of a term; a modifier has none.
#[tactic(auto, using(text::proofs::Laws::Tests::ways), unfolding(crate::specs::Checks::sign_of))]
fn sign_of(term: Term) -> u8
    ensures { result ≡ sign_of term }
{
    match term {
        Term::All { sign } => sign,
        Term::Include { sign, .. } => sign,
        Term::A { sign, .. } => sign,
        Term::Mx { sign, .. } => sign,
        Term::Ptr { sign, .. } => sign,
        Term::Network { sign, .. } => sign,
        Term::Exists { sign, .. } => sign,
        Term::Redirect { .. } => 0,
        Term::Explanation { .. } => 0,
        Term::Unknown { .. } => 0,
    }
}

// The result of a sign, and for a fail the record that failed.
#[tactic(auto, using(text::proofs::Laws::Tests::ways), unfolding(crate::specs::Checks::signed_of))]
fn sign_result(sign: u8, place: FailingPlace) -> Checked
    ensures { result ≡ signed_of sign place }
{
    match sign {
        43 => ended(2),
        45 => Checked {
            value: 3,
            failing: Some(place),
        },
        126 => ended(4),
        _ => ended(1),
    }
}

// Where a modifier's argument stands in the table, by its place in a record that begins at a place of the table.
#[tactic(auto, using(text::proofs::Laws::Tests::ways), unfolding(crate::specs::Checks::in_table, crate::specs::Checks::FitsTable))]
pub fn in_table(m: Option<Span>, start: usize) -> Option<Span>
    requires { FitsTable m start }
    ensures { result ≡ in_table m start }
{
    let Span { from, to } = m?;
    Some(Span {
        from: start + from,
        to: start + to,
    })
}

// The check of a domain: "A malformed or single-label domain gives none"; its record is looked up.
#[cycle(checks)]
pub fn check_domain(
    mail: &Mail,
    table: &[u8],
    domain: &[u8],
    progress: &mut Progress,
    out: &mut [u8],
) -> Result<Checked, Wanted>
    requires { (length domain.now ≤ 253) × (progress.old.counts.lookups ≤ 10) × (progress.old.counts.voids ≤ 2) }
    ensures { Checks table.now (whole (mail_in mail.now) (name domain.now) progress.old.counts) progress.old progress.new result out.old out.new }
{
    if domain::count_labels(domain) <= 1 {
        return Ok(ended(0));
    }
    let found = record_lookup::select_record(table, domain, progress.life);
    progress.life = found.life;
    match found.selected {
        Selected::Ends(value) => Ok(ended(value)),
        Selected::Missing => {
            client_match::put_name(domain, out);
            Err(Wanted {
                kind: 16,
                length: domain.len(),
            })
        }
        Selected::One {
            domain: place,
            text,
        } => evaluate_record(mail, table, place, text, progress, out),
    }
}

// The record that a check selected: it is read whole; only then does a leading term decide it, or are the terms tried that need a lookup.
#[cycle(checks)]
fn evaluate_record(
    mail: &Mail,
    table: &[u8],
    domain: Span,
    text: Span,
    progress: &mut Progress,
    out: &mut [u8],
) -> Result<Checked, Wanted>
    requires { (progress.old.counts.lookups ≤ 10) × (progress.old.counts.voids ≤ 2) × SelectedAt table.now domain text }
    ensures { Checks table.now (read_outcome (mail_in mail.now) (whole (mail_in mail.now)) (span_of table.now domain) (span_of table.now text) (read_record (span_of table.now text)) progress.old.counts) progress.old progress.new result out.old out.new }
{
    let Ok(reading) = opening::open_record(text.of(table), mail.client) else {
        return Ok(ended(6));
    };
    let modifiers = reading.modifiers;
    let exp = in_table(modifiers.exp, text.from);
    let place = FailingPlace { domain, exp };
    match reading.opening {
        Opening::Matched { sign } => Ok(sign_result(sign, place)),
        Opening::Open { at } => {
            try_terms(
                mail,
                table,
                place,
                text,
                modifiers.redirect,
                at,
                progress,
                out,
            )
        }
    }
}

// The terms of a record, from left to right; those up to `start` are known to pass. `redirect` stands in the record. A fail is that of `place`.
#[cycle(checks)]
fn try_terms(
    mail: &Mail,
    table: &[u8],
    place: FailingPlace,
    text: Span,
    redirect: Option<Span>,
    start: usize,
    progress: &mut Progress,
    out: &mut [u8],
) -> Result<Checked, Wanted>
    requires { (progress.old.counts.lookups ≤ 10) × (progress.old.counts.voids ≤ 2) × Underway mail.now.client table.now place text redirect start }
    ensures { Checks table.now (try_terms (mail_in mail.now) (whole (mail_in mail.now)) (span_of table.now place.domain) (terms_of (span_of table.now text) after_version) (terms_of (span_of table.now text) after_version) progress.old.counts) progress.old progress.new result out.old out.new }
{
    let s = text.of(table);
    let mut at = start;
    loop {
        let Ok(Some(read)) = records::next_term(s, at) else {
            return no_match(mail, table, place.domain, s, redirect, progress, out);
        };
        let w = bytes::part(s, read.at, read.next);
        match try_term(mail, table, place.domain, w, read.term, progress, out) {
            Ok(true) => return Ok(sign_result(sign_of(read.term), place)),
            Ok(false) => at = read.next,
            Err(Ending::Result(value)) => return Ok(ended(value)),
            Err(Ending::Wanting(question)) => return Err(question),
        }
    }
}

// No term matches: the redirect of the record `s`, or neutral.
#[cycle(checks)]
fn no_match(
    mail: &Mail,
    table: &[u8],
    domain: Span,
    s: &[u8],
    redirect: Option<Span>,
    progress: &mut Progress,
    out: &mut [u8],
) -> Result<Checked, Wanted>
    requires { (length (span_of table.now domain) ≤ 253) × (progress.old.counts.lookups ≤ 10) × (progress.old.counts.voids ≤ 2) }
    ensures { Checks table.now (no_match (mail_in mail.now) (whole (mail_in mail.now)) (span_of table.now domain) (argument_in s.now redirect) progress.old.counts) progress.old progress.new result out.old out.new }
{
    let Some(spec) = redirect else {
        return Ok(ended(1));
    };
    let checked = begin_check(mail, table, domain, spec.of(s), progress, out)?;
    Ok(none_is_permerror(checked))
}

// A term: include, or any other.
#[cycle(checks)]
fn try_term(
    mail: &Mail,
    table: &[u8],
    domain: Span,
    w: &[u8],
    term: Term,
    progress: &mut Progress,
    out: &mut [u8],
) -> Result<bool, Ending>
    requires { (length (span_of table.now domain) ≤ 253) × (progress.old.counts.lookups ≤ 10) × (progress.old.counts.voids ≤ 2) }
    ensures { Steps table.now (term_step (mail_in mail.now) (whole (mail_in mail.now)) (span_of table.now domain) (said_of w.now term) (said_of w.now term).sign progress.old.counts) progress.old progress.new result out.old out.new }
{
    match mechanisms::try_plain(mail, table, domain.of(table), w, term, progress, out)? {
        Tried::Matches(matches) => Ok(matches),
        Tried::Include(spec) => include(mail, table, domain, spec.of(w), progress, out),
    }
}

// An include: the check of its domain, and what its result says of the record that includes.
#[cycle(checks)]
fn include(
    mail: &Mail,
    table: &[u8],
    domain: Span,
    spec: &[u8],
    progress: &mut Progress,
    out: &mut [u8],
) -> Result<bool, Ending>
    requires { (length (span_of table.now domain) ≤ 253) × (progress.old.counts.lookups ≤ 10) × (progress.old.counts.voids ≤ 2) }
    ensures { Steps table.now (include_step (mail_in mail.now) (whole (mail_in mail.now)) (span_of table.now domain) spec.now progress.old.counts) progress.old progress.new result out.old out.new }
{
    let checked = begin_check(mail, table, domain, spec, progress, out)?;
    included(checked.value)
}

// Counts a lookup, makes the target and checks it.
#[cycle(checks)]
fn begin_check(
    mail: &Mail,
    table: &[u8],
    domain: Span,
    spec: &[u8],
    progress: &mut Progress,
    out: &mut [u8],
) -> Result<Checked, Wanted>
    requires { (length (span_of table.now domain) ≤ 253) × (progress.old.counts.lookups ≤ 10) × (progress.old.counts.voids ≤ 2) }
    ensures { Checks table.now (begun_check (mail_in mail.now) (whole (mail_in mail.now)) (span_of table.now domain) spec.now progress.old.counts) progress.old progress.new result out.old out.new }
{
    if 10 <= progress.counts.lookups {
        return Ok(ended(6));
    }
    progress.counts.lookups += 1;
    let mut to = [0u8; MOST_NAME];
    let Some(n) = target_name::make_target(
        mail,
        table,
        domain.of(table),
        spec,
        &mut to,
        progress,
        out,
    )?
    else {
        return Ok(ended(0));
    };
    check_domain(mail, table, bytes::part(&to, 0, n), progress, out)
}

// A redirect's result: none becomes permerror.
#[tactic(auto, using(text::proofs::Laws::Tests::ways), unfolding(crate::specs::Checks::redirected_of))]
fn none_is_permerror(checked: Checked) -> Checked
    ensures { result ≡ redirected_of checked }
{
    if checked.value == 0 {
        return ended(6);
    }
    checked
}

// What an included check's result says: pass matches; fail, softfail and neutral don't; temperror stays; permerror and none give permerror.
#[tactic(auto, using(text::proofs::Laws::Tests::ways), unfolding(crate::specs::Checks::included_now))]
fn included(value: u8) -> Result<bool, Ending>
    ensures { result ≡ included_now value }
{
    match value {
        2 => Ok(true),
        5 => Err(Ending::Result(5)),
        6 => Err(Ending::Result(6)),
        0 => Err(Ending::Result(6)),
        _ => Ok(false),
    }
}
