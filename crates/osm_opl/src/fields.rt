//! The fields of a line, separated by single spaces.

ghost use Rattle.std.specs.Prelude.{◌≡◌};
ghost use Rattle.osm_opl.specs.Reading.{field_at, last_field_at};
ghost use Rattle.osm_reading.specs.Pieces.{pieces_after};
ghost use Rattle.osm_reading.specs.Answers.{Finds};

use osm_model::form::Why;
use osm_reading::pieces::cut;

/// The content of the next field, which must begin with that letter, and what follows the field.
#[tactic(auto, unfolding(crate::specs::Reading::field_at))]
pub(crate) fn next_field<'a>(
    rest: Option<&'a [u8]>,
    letter: u8,
) -> Result<(&'a [u8], Option<&'a [u8]>), Why>
    ensures { Finds (λ r. (r.0.now, pieces_after 32 r.1)) result
        (field_at letter (pieces_after 32 rest.entry)) }
{
    let Some(fields) = rest else {
        return Err(Why::BadField);
    };
    let (field, after) = cut(fields, b' ');
    match field.split_first() {
        Some((first, content)) if *first == letter => Ok((content, after)),
        _ => Err(Why::BadField),
    }
}

/// The content of the last field, which must begin with that letter.
#[tactic(auto, unfolding(crate::specs::Reading::last_field_at))]
pub(crate) fn last_field<'a>(rest: Option<&'a [u8]>, letter: u8) -> Result<&'a [u8], Why>
    ensures { Finds (λ r. r.now) result (last_field_at letter (pieces_after 32 rest.entry)) }
{
    let (content, after) = next_field(rest, letter)?;
    match after {
        None => Ok(content),
        Some(_) => Err(Why::BadField),
    }
}
