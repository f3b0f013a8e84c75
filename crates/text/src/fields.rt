// The parts of a text between separators.
ghost use Rattle.std.specs.Prelude.{◌≡◌};
ghost use Rattle.text.specs.Runs.{run_end};
ghost use Rattle.text.specs.Fields.{is_not, after_fields, field};

use crate::bytes;

// The place of the first separator from i on, or the end.
fn separator_place(s: &[u8], separator: u8, i: usize) -> usize
    ensures { result ≡ run_end (is_not separator) s.now i }
{
    bytes::run_end_by(s, i, |b| b != separator)
}

// What stands behind k fields and their separators; nothing where there are no more than k fields.
pub fn after_fields(s: &[u8], separator: u8, k: usize) -> &[u8]
    ensures { result.now ≡ after_fields separator k s.now }
{
    let mut rest = s;
    for _ in 0..k {
        let end = separator_place(rest, separator, 0);
        if rest.len() <= end {
            return &[];
        }
        rest = &rest[end + 1..];
    }
    rest
}

// The field after k others; an empty one where it is missing.
pub fn field(s: &[u8], separator: u8, k: usize) -> &[u8]
    ensures { result.now ≡ field separator k s.now }
{
    let rest = after_fields(s, separator, k);
    &rest[..separator_place(rest, separator, 0)]
}
