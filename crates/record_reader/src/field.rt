ghost use Rattle.std.specs.Prelude.{◌≡◌, ◌<◌, IfOk, map, take, length};
ghost use Rattle.record_reader.specs.Fields.{without_return, fields_of, field, number, numbers, either_word, polarization};

use crate::Cause;
use fapp_model::MAX_LEVELS;
use fapp_text::{Fields, is, sign};
use std::alloc::{AllocError, Global};

/// A line without the carriage return at its end, where it has one.
fn without_return(line: &[u8]) -> &[u8]
    ensures { result.now ≡ without_return line.now }
{
    match line.split_last() {
        Some((b'\r', front)) => front,
        _ => line,
    }
}

/// One more field than any record has.
const MOST_FIELDS: usize = 4 + MAX_LEVELS as usize;

/// The first fields of a line, which tell as much as all of them.
pub(crate) fn first_fields(alloc: Global, line: &[u8]) -> Result<Vec<&[u8]>, AllocError>
    ensures { IfOk result (λ v. map (λ x. x.now) v.items ≡ take MOST_FIELDS (fields_of line.now)) }
{
    let mut fields = Vec::new(alloc);
    let mut left = Fields::new(without_return(line));
    while fields.len() < MOST_FIELDS {
        let Some(field) = left.next() else {
            return Ok(fields);
        };
        fields.push(field)?;
    }
    Ok(fields)
}

/// A field by its place.
pub(crate) fn field_at<'a>(fields: &[&'a [u8]], place: usize) -> &'a [u8]
    requires { place < length fields.now }
    ensures { result.now ≡ field (map (λ x. x.now) fields.now) place }
{
    fields[place]
}

/// The number that a field is.
fn number(text: &[u8]) -> Result<u32, Cause>
    ensures { result ≡ number text.now }
{
    match fapp_text::number(text) {
        Ok(n) => Ok(n),
        Err(_) => Err(Cause::BadNumber),
    }
}

/// The number that the field at a place is.
pub(crate) fn number_at(fields: &[&[u8]], place: usize) -> Result<u32, Cause>
    requires { place < length fields.now }
    ensures { result ≡ number (field (map (λ x. x.now) fields.now) place) }
{
    number(field_at(fields, place))
}

/// Whether the field at a place is the first of two words and not the second.
pub(crate) fn word_at(fields: &[&[u8]], place: usize, yes: &[u8], no: &[u8]) -> Result<bool, Cause>
    requires { place < length fields.now }
    ensures { result ≡ either_word yes.now no.now (field (map (λ x. x.now) fields.now) place) }
{
    let text = field_at(fields, place);
    if is(text, yes) {
        return Ok(true);
    }
    if is(text, no) {
        return Ok(false);
    }
    Err(Cause::BadWord)
}

/// The polarization that the field at a place is: `1`, `-1` or `0`.
pub(crate) fn polarization_at(fields: &[&[u8]], place: usize) -> Result<i8, Cause>
    requires { place < length fields.now }
    ensures { result ≡ polarization (field (map (λ x. x.now) fields.now) place) }
{
    let text = field_at(fields, place);
    if is(text, b"0") {
        return Ok(0);
    }
    sign(text).ok_or(Cause::BadPolarization)
}
