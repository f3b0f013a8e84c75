// The explanation that the exp of a record makes: one TXT text, expanded. It counts nothing, and answers no lifetime.
#![tactic(auto)]

ghost use Rattle.std.specs.Prelude.{[], ◌∷◌};
ghost use Rattle.domain.specs.Normal.{name};
ghost use Rattle.records.specs.Readings.{present};
ghost use Rattle.macros.specs.declared.Form.TheVariants.{Explanation};
ghost use Rattle.rules.specs.Mechanisms.{expansion};
ghost use Rattle.rules.specs.Evaluation.{shown, explained, explain_name, explanation};
ghost use Rattle.rules.specs.Outcomes.{mail_in, Shows};
ghost use Rattle.explanation.specs.Stages.{WritesShown, printed};

use answer_table::items::Items;
use domain::MOST_NAME;
use macros::Form;
use rules::{Mail, Progress, Wanted};
use text::bytes::Class;
use text::{bytes, words};

// Writes a text at the front of `text` if its bytes are all 32 to 126; otherwise nothing.
fn put_printable(s: &[u8], text: &mut [u8]) -> usize
    ensures { WritesShown (printed s.now) result text.old text.new }
{
    if words::every(s, Class::Printable) {
        client_match::put_name(s, text);
        return s.len();
    }
    0
}

// The text that an explanation shows with a value of p, at the front of `text`: none where its expansion is over 500 bytes or has a byte outside
// 32 to 126.
fn write_shown(mail: &Mail, domain: &[u8], s: &[u8], p: &[u8], text: &mut [u8]) -> usize
    ensures { WritesShown (shown (expansion (mail_in mail.now) domain.now Explanation s.now p.now)) result text.old text.new }
{
    let mut expanded = [0u8; 500];
    let given = mail.given(domain, p);
    match macros::write_expansion(Form::Explanation, s, &given, &mut expanded) {
        Ok(n) => put_printable(&expanded[..n], text),
        Err(_) => 0,
    }
}

// The explanation that one text makes.
fn explain_text(
    mail: &Mail,
    table: &[u8],
    domain: &[u8],
    s: &[u8],
    text: &mut [u8],
    progress: &mut Progress,
    out: &mut [u8],
) -> Result<usize, Wanted>
    ensures { Shows table.now (explained (mail_in mail.now) domain.now progress.old.counts (s.now ∷ [])) progress.old progress.new result text.old text.new out.old out.new }
{
    let form = Form::Explanation;
    if !macros::read_macro_string(form, s) {
        return Ok(0);
    }
    let p = target_name::find_p_for(mail.client, table, domain, form, s, progress, out)?;
    Ok(write_shown(mail, domain, s, p, text))
}

// The explanation that the texts of a name make: of the only one.
fn explain_name(
    mail: &Mail,
    table: &[u8],
    domain: &[u8],
    target: &[u8],
    text: &mut [u8],
    progress: &mut Progress,
    out: &mut [u8],
) -> Result<usize, Wanted>
    ensures { Shows table.now (explain_name (mail_in mail.now) domain.now progress.old.counts (name target.now)) progress.old progress.new result text.old text.new out.old out.new }
{
    let found = client_match::look_up(table, 16, target, progress, out)?;
    if found.status == 2 {
        return Ok(0);
    }
    let texts = bytes::part(table, found.start, found.end);
    let mut items = Items::new(texts);
    let Some(s) = items.next() else {
        return Ok(0);
    };
    if items.next().is_some() {
        return Ok(0);
    }
    explain_text(mail, table, domain, s, text, progress, out)
}

// The text that the exp of a domain's record makes, at the front of `text`; nothing is written where it is empty. `spec` is the argument of exp. What
// has come before is given by value: neither counts nor lifetime of an explanation are handed back.
pub fn explain(
    mail: &Mail,
    table: &[u8],
    domain: &[u8],
    spec: &[u8],
    text: &mut [u8],
    begun: Progress,
    out: &mut [u8],
) -> Result<usize, Wanted>
    ensures { Shows table.now (explanation (mail_in mail.now) domain.now (present spec.now) begun.counts) begun begun result text.old text.new out.old out.new }
{
    let mut progress = begun;
    let mut target = [0u8; MOST_NAME];
    let Some(n) = target_name::make_target(
        mail,
        table,
        domain,
        spec,
        &mut target,
        &mut progress,
        out,
    )?
    else {
        return Ok(0);
    };
    explain_name(mail, table, domain, &target[..n], text, &mut progress, out)
}
