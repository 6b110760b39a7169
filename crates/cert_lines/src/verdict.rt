//! The line of a verdict.

ghost use Rattle.std.specs.Prelude.{◌≡◌, ◌≤◌, Bool};
ghost use Rattle.fapp_model.specs.declared.triple.Triple.{Triple as Numbers};
ghost use Rattle.fapp_model.specs.Instances.{IsInstance};
ghost use Rattle.cert_lines.specs.WellFormed.{is_cost, is_shown};
ghost use Rattle.fapp_text.specs.Reading.{Gives};
ghost use Rattle.cert_lines.specs.FieldsLeft.{fields_left};
ghost use Rattle.cert_lines.specs.VerdictReading.{word_at, judged, best_line, level_at, open_line, verdict_line};

use crate::Verdict;
use crate::elements::Literals;
use crate::fault::{CertCause, LineError};
use crate::fields::{Fields, ended, field_at, number_at, tag_at, triple_at};
use crate::lists::list_at;
use fapp_model::{Instance, MAX_LEVELS, Triple, is_tag, levels};
use fapp_text::is;
use std::alloc::Global;

#[tactic(auto, unfolding(crate::specs::VerdictReading::word_at))]
fn word_at<'a>(word: &[u8], fields: Fields<'a>) -> Result<Fields<'a>, LineError>
    ensures { Gives (λ x. fields_left x) result (word_at word.now (fields_left fields.entry)) }
{
    let (field, rest) = field_at(fields)?;
    if !is(field, word) {
        return Err(LineError::Bad(CertCause::BadKind));
    }
    Ok(rest)
}

/// Whether a triple is what a plan can cost.
fn is_cost(levels: u32, t: Triple) -> bool
    requires { levels ≤ MAX_LEVELS }
    ensures { result ≡ is_cost levels t }
{
    is_tag(levels, t) && (t.v > 0 || t.k == 0)
}

/// Whether a triple is what a plan can cost, or says that none is shown.
fn is_shown(levels: u32, t: Triple) -> bool
    requires { levels ≤ MAX_LEVELS }
    ensures { result ≡ is_shown levels t }
{
    is_tag(levels, t) && (t.v > 0 || t.k == 0 || t.k == levels + 1)
}

/// Three numbers that pass a test.
#[tactic(auto, unfolding(crate::specs::VerdictReading::judged))]
fn judged<'a, F: Fn(Triple) -> bool>(
    fields: Fields<'a>,
    test: F,
) -> Result<(Triple, Fields<'a>), LineError>
    requires { F.IsAlwaysCallable test }
    ensures { (p : Numbers → Bool) → ((t : Numbers) (b : Bool) → F.post test t b → b ≡ p t) →
        Gives (λ x. (x.0, fields_left x.1)) result (judged p (fields_left fields.entry)) }
{
    let (t, rest) = triple_at(fields)?;
    if !test(t) {
        return Err(LineError::Bad(CertCause::BadTag));
    }
    Ok((t, rest))
}

/// A level of the instance, or the one at which nothing is violated.
#[tactic(auto, unfolding(crate::specs::VerdictReading::level_at))]
fn level_at<'a>(instance: &Instance, fields: Fields<'a>) -> Result<(u32, Fields<'a>), LineError>
    ensures { Gives (λ x. (x.0, fields_left x.1)) result
        (level_at instance.now (fields_left fields.entry)) }
{
    let (level, rest) = number_at(fields)?;
    if level > levels(instance) {
        return Err(LineError::Bad(CertCause::BadNumber));
    }
    Ok((level, rest))
}

#[tactic(auto, unfolding(crate::specs::VerdictReading::best_line))]
fn best_line(instance: &Instance, fields: Fields) -> Result<Verdict, LineError>
    ensures { Gives (λ x. x) result (best_line instance.now (fields_left fields.entry)) }
{
    let levels = levels(instance);
    let (t, rest) = judged(fields, |t| is_cost(levels, t))?;
    ended(rest)?;
    Ok(Verdict::Best(t))
}

#[tactic(auto, unfolding(crate::specs::VerdictReading::open_line))]
fn open_line(alloc: Global, instance: &Instance, fields: Fields) -> Result<Verdict, LineError>
    requires { IsInstance instance.now }
    ensures { Gives (λ x. x) result (open_line instance.now (fields_left fields.entry)) }
{
    let levels = levels(instance);
    let (best, rest) = judged(fields, |t| is_shown(levels, t))?;
    let rest = word_at(b"LOWER", rest)?;
    let (lower, rest) = tag_at(instance, rest)?;
    let rest = word_at(b"AT", rest)?;
    let (level, rest) = level_at(instance, rest)?;
    let (prefix, rest) = list_at(alloc, &Literals { instance }, rest)?;
    ended(rest)?;
    Ok(Verdict::Open {
        best,
        lower,
        level,
        prefix,
    })
}

#[tactic(auto, unfolding(crate::specs::VerdictReading::verdict_line))]
pub(crate) fn verdict_line(
    alloc: Global,
    instance: &Instance,
    fields: Fields,
) -> Result<Verdict, LineError>
    requires { IsInstance instance.now }
    ensures { Gives (λ x. x) result (verdict_line instance.now (fields_left fields.entry)) }
{
    let (word, rest) = field_at(fields)?;
    if is(word, b"BEST") {
        return best_line(instance, rest);
    }
    if is(word, b"NONE") {
        ended(rest)?;
        return Ok(Verdict::NoneFeasible);
    }
    if is(word, b"OPEN") {
        return open_line(alloc, instance, rest);
    }
    Err(LineError::Bad(CertCause::BadKind))
}
