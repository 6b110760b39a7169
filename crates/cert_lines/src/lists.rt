//! Lists in the midst of a line: how many elements there are, and each one.

ghost use Rattle.std.specs.Prelude.{◌≡◌, ◌<◌, length, IfOk};
ghost use Rattle.fapp_model.specs.Instances.{IsInstance};
ghost use Rattle.fapp_text.specs.Reading.{Gives};
ghost use Rattle.cert_lines.specs.FieldsLeft.{fields_left};
ghost use Rattle.cert_lines.specs.ListReading.{position_at, index_at, counted, list_at};

use crate::elements::ElementReader;
use crate::fault::{CertCause, LineError};
use crate::fields::{Fields, number_at};
use fapp_model::{Instance, Items, choice_count};
use std::alloc::Global;

#[tactic(auto, unfolding(crate::specs::ListReading::position_at))]
pub(crate) fn position_at<'a>(
    instance: &Instance,
    fields: Fields<'a>,
) -> Result<(u16, Fields<'a>), LineError>
    requires { IsInstance instance.now }
    ensures gives { Gives (λ x. (x.0, fields_left x.1)) result
        (position_at instance.now (fields_left fields.entry)) }
    ensures in_range { IfOk result (λ x. x.0 < length instance.now.paths) }
{
    let (path, rest) = number_at(fields)?;
    if path as usize >= instance.paths.len() {
        return Err(LineError::Bad(CertCause::UnknownPath));
    }
    Ok((path as u16, rest))
}

#[tactic(auto, unfolding(crate::specs::ListReading::index_at))]
pub(crate) fn index_at<'a>(
    instance: &Instance,
    path: u16,
    fields: Fields<'a>,
) -> Result<(u16, Fields<'a>), LineError>
    requires instance { IsInstance instance.now }
    requires path { path < length instance.now.paths }
    ensures { Gives (λ x. (x.0, fields_left x.1)) result
        (index_at instance.now path (fields_left fields.entry)) }
{
    let (choice, rest) = number_at(fields)?;
    let count = choice_count(&instance.paths.as_slice()[path as usize]);
    if choice >= count {
        return Err(LineError::Bad(CertCause::UnknownChoice));
    }
    Ok((choice as u16, rest))
}

/// How many elements there are, and each one.
#[tactic(auto, unfolding(crate::specs::ListReading::list_at))]
pub(crate) fn list_at<'a, R: ElementReader>(
    alloc: Global,
    reader: &R,
    fields: Fields<'a>,
) -> Result<(Items<R::Element>, Fields<'a>), LineError>
    requires { R.valid reader.now }
    ensures { Gives (λ x. (x.0, fields_left x.1)) result
        (list_at (R.step reader.now) (fields_left fields.entry)) }
{
    let (count, rest) = number_at(fields)?;
    counted(alloc, reader, count, rest)
}

/// So many elements, from left to right.
fn counted<'a, R: ElementReader>(
    alloc: Global,
    reader: &R,
    count: u32,
    fields: Fields<'a>,
) -> Result<(Items<R::Element>, Fields<'a>), LineError>
    requires { R.valid reader.now }
    ensures { Gives (λ x. (x.0, fields_left x.1)) result
        (counted (R.step reader.now) count (fields_left fields.entry)) }
{
    let mut elements = Vec::new(alloc);
    let mut low = 0;
    let mut rest = fields;
    for _ in 0..count {
        let (element, least, after) = reader.element_at(low, rest)?;
        elements.push(element)?;
        low = least;
        rest = after;
    }
    Ok((Items::from_vec(elements), rest))
}
