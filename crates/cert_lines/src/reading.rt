//! The reading of a text, line by line.

ghost use Rattle.std.specs.Prelude.{◌≡◌, ◌<◌, ◌≤◌, ◌+◌, ◌==◌, length, IfOk, Ok};
ghost use Rattle.std.specs.List.{position};
ghost use Rattle.fapp_model.specs.Instances.{IsInstance};
ghost use Rattle.fapp_text.specs.Lines.{is_line_feed};
ghost use Rattle.fapp_text.specs.Reading.{Gives};
ghost use Rattle.cert_lines.specs.FieldsLeft.{fields_left};
ghost use Rattle.cert_lines.specs.Reading.{next_line, line_by, until, version_at, finished, reading, IsReading};
ghost use Rattle.cert_lines.specs.TextLeft.{text_left};

use crate::fields::{Fields, fields_of};
use crate::line::{CertificateLines, LineReader, PlanLines, VerdictLine, VersionLine};
use crate::text::Text;
use crate::{Answer, AnswerError, CertCause};
use fapp_model::{Instance, Items};
use fapp_text::{MAX_TEXT, failure_at, fault_at};
use std::alloc::Global;

/// The answer that a text of at most `MAX_TEXT` bytes is. `Bad` is the first fault of a text that
/// is no answer's, and `NoMemory` comes where room could not be had.
pub fn read_answer(alloc: Global, instance: &Instance, bytes: &[u8]) -> Result<Answer, AnswerError>
    requires instance { IsInstance instance.now }
    requires size { length bytes.now ≤ MAX_TEXT }
    ensures { IsReading instance.now bytes.now result }
{
    answer_of(alloc, instance, bytes)
}

/// The fields of the next line, and the text after it.
fn next_line<'a>(text: Text<'a>) -> Result<(Fields<'a>, Text<'a>), AnswerError>
    ensures gives { Gives (λ x. (fields_left x.0, text_left x.1)) result
        (next_line (text_left text.entry)) }
    ensures shorter { IfOk result (λ x. length x.1.rest.now < length text.entry.rest.now) }
{
    let bytes = text.rest;
    match line_feed_at(bytes) {
        Some(end) => Ok((
            fields_of(&bytes[..end]),
            Text {
                rest: &bytes[end + 1..],
                line: text.line + 1,
            },
        )),
        None => Err(fault_at(text.line, CertCause::NoEnd)),
    }
}

fn line_feed_at(bytes: &[u8]) -> Option<usize>
    ensures { result ≡ position is_line_feed bytes.now }
{
    bytes.iter().position(|byte| *byte == b'\n')
}

/// The next line, read by its fields, and the text after it.
#[tactic(auto, unfolding(crate::specs::Reading::line_by))]
fn line_by<'t, R: LineReader>(
    alloc: Global,
    reader: &R,
    place: usize,
    text: Text<'t>,
) -> Result<(R::Found, Text<'t>), AnswerError>
    requires { R.valid reader.now }
    ensures gives { Gives (λ x. (x.0, text_left x.1)) result
        (line_by (R.read reader.now place) (text_left text.entry)) }
    ensures shorter { IfOk result (λ x. length x.1.rest.now < length text.entry.rest.now) }
{
    let (fields, after) = next_line(text)?;
    match reader.read_line(alloc, place, fields) {
        Ok(found) => Ok((found, after)),
        Err(error) => Err(failure_at(text.line, error)),
    }
}

/// The lines up to the one that ends them.
fn until<'t, T: Drop, R: LineReader<Found = Option<T>>>(
    alloc: Global,
    reader: &R,
    text: Text<'t>,
) -> Result<(Items<T>, Text<'t>), AnswerError>
    requires { R.valid reader.now }
    ensures { let rest = text_left text.entry in
        Gives (λ x. (x.0, text_left x.1)) result (until (R.read reader.now) 0 rest.0 rest.1) }
{
    let mut found = Vec::new(alloc);
    let mut rest = text;
    loop {
        let (line, after) = line_by(alloc, reader, found.len(), rest)?;
        rest = after;
        match line {
            None => return Ok((Items::from_vec(found), rest)),
            Some(line) => found.push(line)?,
        }
    }
}

/// The version, and the text after the line that says it. A text without such a line is of version
/// 1.
#[tactic(auto, unfolding(crate::specs::Reading::version_at))]
fn version_at<'t>(alloc: Global, text: Text<'t>) -> Result<(u32, Text<'t>), AnswerError>
    ensures { Gives (λ x. (x.0, text_left x.1)) result (version_at (text_left text.entry)) }
{
    let (found, after) = line_by(alloc, &VersionLine, 0, text)?;
    match found {
        Some(version) => Ok((version, after)),
        None => Ok((1, text)),
    }
}

/// No byte may follow.
fn finished(text: Text) -> Result<(), AnswerError>
    ensures { Gives (λ x. x) result (finished (text_left text.entry)) }
{
    if !text.rest.is_empty() {
        return Err(fault_at(text.line, CertCause::AfterEnd));
    }
    Ok(())
}

#[tactic(auto, unfolding(crate::specs::Reading::reading))]
fn answer_of(alloc: Global, instance: &Instance, bytes: &[u8]) -> Result<Answer, AnswerError>
    requires instance { IsInstance instance.now }
    requires size { length bytes.now ≤ MAX_TEXT }
    ensures { Gives (λ x. x) result (reading instance.now bytes.now) }
{
    let text = Text {
        rest: bytes,
        line: 1,
    };
    let (plan, rest) = until(alloc, &PlanLines { instance }, text)?;
    let (verdict, rest) = line_by(alloc, &VerdictLine { instance }, 0, rest)?;
    let (version, rest) = version_at(alloc, rest)?;
    let (lines, rest) = until(alloc, &CertificateLines { instance, version }, rest)?;
    finished(rest)?;
    Ok(Answer {
        plan,
        verdict,
        version,
        lines,
    })
}
