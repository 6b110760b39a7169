//! The lines of a plan.

ghost use Rattle.std.specs.Prelude.{◌≡◌, ◌==◌};
ghost use Rattle.std.specs.List.{list_any};
ghost use Rattle.fapp_text.specs.Reading.{Gives};
ghost use Rattle.cert_lines.specs.FieldsLeft.{fields_left};
ghost use Rattle.cert_lines.specs.PlanReading.{polarization_at, misplaced, is_turn, choice_line, plan_line};

use crate::fault::{CertCause, LineError};
use crate::fields::{Fields, ended, field_at, number_at};
use fapp_model::{Choice, Instance, Path};
use fapp_text::{is, sign};

#[tactic(auto, unfolding(crate::specs::PlanReading::polarization_at))]
fn polarization_at<'a>(fields: Fields<'a>) -> Result<(i8, Fields<'a>), LineError>
    ensures { Gives (λ x. (x.0, fields_left x.1)) result
        (polarization_at (fields_left fields.entry)) }
{
    let (field, rest) = field_at(fields)?;
    match sign(field) {
        Some(pol) => Ok((pol, rest)),
        None => Err(LineError::Bad(CertCause::BadNumber)),
    }
}

/// What a number in another path's place is.
fn misplaced(instance: &Instance, number: u32) -> CertCause
    ensures { result ≡ misplaced instance.now number }
{
    if is_number_of_path(instance.paths.as_slice(), number) {
        CertCause::BadOrder
    } else {
        CertCause::UnknownPath
    }
}

fn is_number_of_path(paths: &[Path], number: u32) -> bool
    ensures { result ≡ list_any (λ path. path.number == number) paths.now }
{
    paths.iter().any(|path| path.number == number)
}

/// Whether a number is that of the path at a place.
fn is_turn(instance: &Instance, place: usize, number: u32) -> bool
    ensures { result ≡ is_turn instance.now place number }
{
    place < instance.paths.len() && instance.paths.as_slice()[place].number == number
}

/// The choice of the path at a place.
#[tactic(auto, unfolding(crate::specs::PlanReading::choice_line))]
fn choice_line(instance: &Instance, place: usize, fields: Fields) -> Result<Choice, LineError>
    ensures { Gives (λ x. x) result (choice_line instance.now place (fields_left fields.entry)) }
{
    let (number, rest) = number_at(fields)?;
    if !is_turn(instance, place, number) {
        return Err(LineError::Bad(misplaced(instance, number)));
    }
    let (freq, rest) = number_at(rest)?;
    let (pol, rest) = polarization_at(rest)?;
    ended(rest)?;
    Ok(Choice { freq, pol })
}

/// A line of a plan that has so many lines before it. `None` is the line that ends the plan.
#[tactic(auto, unfolding(crate::specs::PlanReading::plan_line))]
pub(crate) fn plan_line(
    instance: &Instance,
    place: usize,
    fields: Fields,
) -> Result<Option<Choice>, LineError>
    ensures { Gives (λ x. x) result (plan_line instance.now place (fields_left fields.entry)) }
{
    let (word, rest) = field_at(fields)?;
    if is(word, b"--") {
        ended(rest)?;
        return Ok(None);
    }
    if is(word, b"AL") {
        let choice = choice_line(instance, place, rest)?;
        return Ok(Some(choice));
    }
    Err(LineError::Bad(CertCause::BadKind))
}
