//! The fields at the front of a line: words, numbers and tags.

ghost use Rattle.std.specs.Prelude.{◌≡◌, ◌<◌, ◌==◌, ◌&&◌, nat_lt, length, slice_index, IsTrue, Ok};
ghost use Rattle.std.specs.List.{position};
ghost use Rattle.fapp_text.specs.Reading.{Gives};
ghost use Rattle.cert_lines.specs.FieldReading.{is_space, is_padded, fields_of, field_at, ended, number_of, number_at, triple_at, tag_at};
ghost use Rattle.cert_lines.specs.FieldsLeft.{fields_left};

use crate::fault::{CertCause, LineError};
use fapp_model::{Instance, Tag, Triple, is_tag, levels, tag_of};
use fapp_text::number;

/// The fields of a line that are still to be read.
#[derive(Clone, Copy)]
pub(crate) struct Fields<'a> {
    /// What stands behind the last space that was read, if the line has not ended there.
    pub rest: Option<&'a [u8]>,
}

/// All fields of a line.
pub(crate) fn fields_of(line: &[u8]) -> Fields<'_>
    ensures { fields_left result ≡ fields_of line.now }
{
    Fields { rest: Some(line) }
}

/// The first field, and those behind it.
pub(crate) fn field_at<'a>(fields: Fields<'a>) -> Result<(&'a [u8], Fields<'a>), LineError>
    ensures { Gives (λ x. (x.0.now, fields_left x.1)) result (field_at (fields_left fields.entry)) }
{
    let Some(rest) = fields.rest else {
        return Err(LineError::Bad(CertCause::FieldCount));
    };
    Ok(first_field(rest))
}

fn first_field<'a>(bytes: &'a [u8]) -> (&'a [u8], Fields<'a>)
    ensures { field_at (fields_of bytes.now) ≡ Ok (result.0.now, fields_left result.1) }
{
    match space_at(bytes) {
        Some(end) => (
            &bytes[..end],
            Fields {
                rest: Some(&bytes[end + 1..]),
            },
        ),
        None => (bytes, Fields { rest: None }),
    }
}

fn space_at(bytes: &[u8]) -> Option<usize>
    ensures { result ≡ position is_space bytes.now }
{
    bytes.iter().position(|byte| *byte == b' ')
}

/// No field may be left.
pub(crate) fn ended(fields: Fields) -> Result<(), LineError>
    ensures { Gives (λ x. x) result (ended (fields_left fields.entry)) }
{
    match fields.rest {
        Some(_) => Err(LineError::Bad(CertCause::FieldCount)),
        None => Ok(()),
    }
}

fn is_padded(field: &[u8]) -> bool
    ensures { result ≡ is_padded field.now }
{
    field.len() > 1 && field[0] == b'0'
}

fn number_of(field: &[u8]) -> Result<u32, LineError>
    ensures { Gives (λ x. x) result (number_of field.now) }
{
    if is_padded(field) {
        return Err(LineError::Bad(CertCause::BadNumber));
    }
    match number(field) {
        Ok(n) => Ok(n),
        Err(_) => Err(LineError::Bad(CertCause::BadNumber)),
    }
}

#[tactic(auto, unfolding(crate::specs::FieldReading::number_at))]
pub(crate) fn number_at<'a>(fields: Fields<'a>) -> Result<(u32, Fields<'a>), LineError>
    ensures { Gives (λ x. (x.0, fields_left x.1)) result (number_at (fields_left fields.entry)) }
{
    let (field, rest) = field_at(fields)?;
    let n = number_of(field)?;
    Ok((n, rest))
}

#[tactic(auto, unfolding(crate::specs::FieldReading::triple_at))]
pub(crate) fn triple_at<'a>(fields: Fields<'a>) -> Result<(Triple, Fields<'a>), LineError>
    ensures { Gives (λ x. (x.0, fields_left x.1)) result (triple_at (fields_left fields.entry)) }
{
    let (k, rest) = number_at(fields)?;
    let (v, rest) = number_at(rest)?;
    let (s, rest) = number_at(rest)?;
    Ok((Triple { k, v, s }, rest))
}

/// Three numbers that are a tag of the instance.
#[tactic(auto, unfolding(crate::specs::FieldReading::tag_at))]
pub(crate) fn tag_at<'a>(
    instance: &Instance,
    fields: Fields<'a>,
) -> Result<(Tag, Fields<'a>), LineError>
    ensures { Gives (λ x. (x.0, fields_left x.1)) result
        (tag_at instance.now (fields_left fields.entry)) }
{
    let (t, rest) = triple_at(fields)?;
    if !is_tag(levels(instance), t) {
        return Err(LineError::Bad(CertCause::BadTag));
    }
    Ok((tag_of(t), rest))
}
