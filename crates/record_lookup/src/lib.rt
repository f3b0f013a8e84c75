// Record lookup: the one record of a domain, by its place in the table.
#![tactic(auto)]

ghost use Rattle.std.specs.Prelude.{◌≡◌};
ghost use Rattle.text.specs.Bytes.{part};
ghost use Rattle.answer_table.specs.Reader.{items_of};
ghost use Rattle.rules.specs.Evaluation.{versioned};
ghost use Rattle.rules.specs.Outcomes.{SaysSelection};
ghost use Rattle.record_lookup.specs.Picking.{one_more, joined, PickedIs};

use answer_table::items::Places;
use rules::{LookedUp, Selected};
use text::bytes;
use text::spans::Span;

// Which of some texts are records: none; several; or one, by its place in the table. An Option would lose the several, which is no error yet.
#[derive(Clone, Copy)]
pub enum Picked {
    Nothing,
    Several,
    One(Span),
}

// The records so far and one more.
fn one_more(earlier: Picked, place: Span) -> Picked
    ensures { result ≡ one_more earlier place }
{
    match earlier {
        Picked::Nothing => Picked::One(place),
        Picked::Several => Picked::Several,
        Picked::One(_) => Picked::Several,
    }
}

// The records so far and a further text, which is one if it has a version section.
fn join_text(table: &[u8], earlier: Picked, place: Span) -> Picked
    ensures { result ≡ joined table.now earlier place }
{
    if records::has_version(place.of(table)) {
        return one_more(earlier, place);
    }
    earlier
}

// Which of the items from a place of the table up to another are records.
fn pick(table: &[u8], start: usize, end: usize) -> Picked
    ensures { PickedIs start (part table.now start end) (versioned (items_of (part table.now start end))) result }
{
    let texts = bytes::part(table, start, end);
    let mut seen = Picked::Nothing;
    for place in Places::new(texts) {
        let text = Span {
            from: start + place.from,
            to: start + place.to,
        };
        seen = join_text(table, seen, text);
    }
    seen
}

// The record of a domain, among the texts of its TXT question, and the lifetime after it.
pub fn select_record(table: &[u8], domain: &[u8], life: Option<u32>) -> LookedUp
    ensures { SaysSelection domain.now table.now life result }
{
    let Some(found) = answer_table::find(table, 16, domain) else {
        return LookedUp {
            selected: Selected::Missing,
            life,
        };
    };
    let life = Some(client_match::sooner(life, found.lifetime));
    if found.status == 2 {
        return LookedUp {
            selected: Selected::Ends(5),
            life,
        };
    }
    let selected = match pick(table, found.start, found.end) {
        Picked::Nothing => Selected::Ends(0),
        Picked::Several => Selected::Ends(6),
        Picked::One(text) => Selected::One {
            domain: Span {
                from: found.start - domain.len(),
                to: found.start,
            },
            text,
        },
    };
    LookedUp { selected, life }
}
