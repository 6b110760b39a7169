//! What the lines of a text are: lines of a plan, verdicts, versions and certificate lines.

ghost use Rattle.std.specs.Prelude.{ℕ, List, Result};
ghost use Rattle.fapp_model.specs.Instances.{IsInstance};
ghost use Rattle.cert_lines.specs.declared.fault.CertCause.{CertCause as Cause};
ghost use Rattle.fapp_text.specs.Reading.{Gives};
ghost use Rattle.cert_lines.specs.FieldsLeft.{fields_left};
ghost use Rattle.cert_lines.specs.PlanReading.{plan_line};
ghost use Rattle.cert_lines.specs.VerdictReading.{verdict_line};
ghost use Rattle.cert_lines.specs.VersionReading.{version_line};
ghost use Rattle.cert_lines.specs.CertificateReading.{certificate_line};

use crate::certificate::certificate_line;
use crate::fault::LineError;
use crate::fields::Fields;
use crate::plan::plan_line;
use crate::verdict::verdict_line;
use crate::version::version_line;
use crate::{Line, Verdict};
use fapp_model::{Choice, Instance};
use std::alloc::Global;

/// Reads lines of one kind.
pub(crate) trait LineReader {
    type Found;

    ghost valid: { Self → Type 0 };

    ghost read: { Self → ℕ → List (List ℕ) → Result Self.Found Cause };

    /// What a line says that has so many lines of its kind before it.
    fn read_line(
        &self,
        alloc: Global,
        place: usize,
        fields: Fields,
    ) -> Result<Self::Found, LineError>
        requires { valid self.now }
        ensures { Gives (λ x. x) result (read self.now place (fields_left fields.entry)) };
}

/// A choice of a plan, or `None` at the line that ends it.
#[derive(Clone, Copy)]
pub(crate) struct PlanLines<'i> {
    pub instance: &'i Instance,
}

impl<'i> LineReader for PlanLines<'i> {
    type Found = Option<Choice>;

    ghost valid = { λ s. Unit {0} };

    ghost read = { λ s. plan_line s.instance.now };

    fn read_line(
        &self,
        _alloc: Global,
        place: usize,
        fields: Fields,
    ) -> Result<Option<Choice>, LineError> {
        plan_line(self.instance, place, fields)
    }
}

/// A verdict.
#[derive(Clone, Copy)]
pub(crate) struct VerdictLine<'i> {
    pub instance: &'i Instance,
}

impl<'i> LineReader for VerdictLine<'i> {
    type Found = Verdict;

    ghost valid = { λ s. IsInstance s.instance.now };

    ghost read = { λ s place. verdict_line s.instance.now };

    fn read_line(
        &self,
        alloc: Global,
        _place: usize,
        fields: Fields,
    ) -> Result<Verdict, LineError> {
        verdict_line(alloc, self.instance, fields)
    }
}

/// A version, or `None` at another line.
pub(crate) struct VersionLine;

impl LineReader for VersionLine {
    type Found = Option<u32>;

    ghost valid = { λ s. Unit {0} };

    ghost read = { λ s place. version_line };

    fn read_line(
        &self,
        _alloc: Global,
        _place: usize,
        fields: Fields,
    ) -> Result<Option<u32>, LineError> {
        version_line(fields)
    }
}

/// A line of a certificate, or `None` at the line that ends it.
#[derive(Clone, Copy)]
pub(crate) struct CertificateLines<'i> {
    pub instance: &'i Instance,
    pub version: u32,
}

impl<'i> LineReader for CertificateLines<'i> {
    type Found = Option<Line>;

    ghost valid = { λ s. IsInstance s.instance.now };

    ghost read = { λ s place. certificate_line s.version s.instance.now };

    fn read_line(
        &self,
        alloc: Global,
        _place: usize,
        fields: Fields,
    ) -> Result<Option<Line>, LineError> {
        certificate_line(alloc, self.version, self.instance, fields)
    }
}
