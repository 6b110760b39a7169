//! The lines of a certificate.

ghost use Rattle.std.specs.Prelude.{◌≡◌, ◌==◌, ◌&&◌};
ghost use Rattle.fapp_model.specs.Instances.{IsInstance};
ghost use Rattle.fapp_text.specs.Reading.{Gives};
ghost use Rattle.cert_lines.specs.FieldsLeft.{fields_left};
ghost use Rattle.cert_lines.specs.CertificateReading.{count_line, branch_line, delete_line, certificate_line};

use crate::elements::{Children, Cites, Literals};
use crate::fault::{CertCause, LineError};
use crate::fields::{Fields, ended, field_at, tag_at};
use crate::lists::{list_at, position_at};
use crate::{Line, Rule};
use fapp_model::{Instance, Items, Tag};
use fapp_text::is;
use std::alloc::Global;

#[tactic(auto, unfolding(crate::specs::CertificateReading::count_line))]
fn count_line(alloc: Global, instance: &Instance, fields: Fields) -> Result<Line, LineError>
    requires { IsInstance instance.now }
    ensures { Gives (λ x. x) result (count_line instance.now (fields_left fields.entry)) }
{
    let (tag, rest) = tag_at(instance, fields)?;
    let (lits, rest) = list_at(alloc, &Literals { instance }, rest)?;
    let (cites, rest) = list_at(alloc, &Cites, rest)?;
    ended(rest)?;
    Ok(Line {
        tag,
        lits,
        rule: Rule::Count { cites },
    })
}

#[tactic(auto, unfolding(crate::specs::CertificateReading::branch_line))]
fn branch_line(alloc: Global, instance: &Instance, fields: Fields) -> Result<Line, LineError>
    requires { IsInstance instance.now }
    ensures { Gives (λ x. x) result (branch_line instance.now (fields_left fields.entry)) }
{
    let (tag, rest) = tag_at(instance, fields)?;
    let (lits, rest) = list_at(alloc, &Literals { instance }, rest)?;
    let (path, rest) = position_at(instance, rest)?;
    let (children, rest) = list_at(alloc, &Children { instance, path }, rest)?;
    ended(rest)?;
    Ok(Line {
        tag,
        lits,
        rule: Rule::Branch { path, children },
    })
}

#[tactic(auto, unfolding(crate::specs::CertificateReading::delete_line))]
fn delete_line(alloc: Global, fields: Fields) -> Result<Line, LineError>
    ensures { Gives (λ x. x) result (delete_line (fields_left fields.entry)) }
{
    let (cites, rest) = list_at(alloc, &Cites, fields)?;
    ended(rest)?;
    Ok(Line {
        tag: Tag { code: 0 },
        lits: Items::new(alloc),
        rule: Rule::Delete { cites },
    })
}

/// A line of a certificate of a version. `None` is the line that ends it.
#[tactic(auto, unfolding(crate::specs::CertificateReading::certificate_line))]
pub(crate) fn certificate_line(
    alloc: Global,
    version: u32,
    instance: &Instance,
    fields: Fields,
) -> Result<Option<Line>, LineError>
    requires { IsInstance instance.now }
    ensures { Gives (λ x. x) result (certificate_line version instance.now
        (fields_left fields.entry)) }
{
    let (word, rest) = field_at(fields)?;
    if is(word, b"END") {
        ended(rest)?;
        return Ok(None);
    }
    if is(word, b"C") {
        let line = count_line(alloc, instance, rest)?;
        return Ok(Some(line));
    }
    if is(word, b"B") {
        let line = branch_line(alloc, instance, rest)?;
        return Ok(Some(line));
    }
    if version == 2 && is(word, b"D") {
        let line = delete_line(alloc, rest)?;
        return Ok(Some(line));
    }
    Err(LineError::Bad(CertCause::BadKind))
}
