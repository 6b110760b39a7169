//! The line of a version.

ghost use Rattle.std.specs.Prelude.{◌≡◌};
ghost use Rattle.fapp_text.specs.Reading.{Gives};
ghost use Rattle.cert_lines.specs.FieldsLeft.{fields_left};
ghost use Rattle.cert_lines.specs.VersionReading.{second_version, version_line};

use crate::fault::{CertCause, LineError};
use crate::fields::{Fields, ended, field_at};
use fapp_text::is;

/// The version that a line says, which is always 2.
#[tactic(auto, unfolding(crate::specs::VersionReading::second_version))]
fn second_version(fields: Fields) -> Result<u32, LineError>
    ensures { Gives (λ x. x) result (second_version (fields_left fields.entry)) }
{
    let (number, rest) = field_at(fields)?;
    if !is(number, b"2") {
        return Err(LineError::Bad(CertCause::BadNumber));
    }
    ended(rest)?;
    Ok(2)
}

/// The version that a line says. `None` comes where it is another line.
#[tactic(auto, unfolding(crate::specs::VersionReading::version_line))]
pub(crate) fn version_line(fields: Fields) -> Result<Option<u32>, LineError>
    ensures { Gives (λ x. x) result (version_line (fields_left fields.entry)) }
{
    let (word, rest) = field_at(fields)?;
    if is(word, b"V") {
        let version = second_version(rest)?;
        return Ok(Some(version));
    }
    Ok(None)
}
