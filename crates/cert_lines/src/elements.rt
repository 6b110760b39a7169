//! What the lists in the midst of a line are made of: literals, cites and children.

ghost use Rattle.std.specs.Prelude.{◌<◌, length, Result};
ghost use Rattle.fapp_model.specs.Instances.{IsInstance};
ghost use Rattle.cert_lines.specs.declared.fault.CertCause.{CertCause as Cause};
ghost use Rattle.fapp_text.specs.Reading.{Gives};
ghost use Rattle.cert_lines.specs.FieldsLeft.{fields_left};
ghost use Rattle.cert_lines.specs.ListReading.{State, literal_at, cite_at, child_at};

use crate::Child;
use crate::fault::{CertCause, LineError};
use crate::fields::{Fields, number_at};
use crate::lists::{index_at, position_at};
use fapp_model::{Instance, Literal};

/// Reads the elements of a list one by one, in ascending order.
pub(crate) trait ElementReader {
    type Element: Drop;

    ghost valid: { Self → Type 0 };

    ghost step: { Self → State → Result (Self.Element × State) Cause };

    /// An element whose key is at least `low`, the least key that may follow it, and the fields
    /// behind it.
    fn element_at<'a>(
        &self,
        low: u64,
        fields: Fields<'a>,
    ) -> Result<(Self::Element, u64, Fields<'a>), LineError>
        requires { valid self.now }
        ensures { Gives (λ x. (x.0, (x.1, fields_left x.2))) result
            (step self.now (low, fields_left fields.entry)) };
}

/// Literals, by their paths' positions.
#[derive(Clone, Copy)]
pub(crate) struct Literals<'i> {
    pub instance: &'i Instance,
}

impl<'i> ElementReader for Literals<'i> {
    type Element = Literal;

    ghost valid = { λ s. IsInstance s.instance.now };

    ghost step = { λ s. literal_at s.instance.now };

    #[tactic(auto, unfolding(crate::specs::ListReading::literal_at))]
    fn element_at<'a>(
        &self,
        low: u64,
        fields: Fields<'a>,
    ) -> Result<(Literal, u64, Fields<'a>), LineError> {
        let (path, rest) = position_at(self.instance, fields)?;
        if u64::from(path) < low {
            return Err(LineError::Bad(CertCause::BadOrder));
        }
        let (choice, rest) = index_at(self.instance, path, rest)?;
        Ok((Literal { path, choice }, u64::from(path) + 1, rest))
    }
}

/// Numbers of lines.
pub(crate) struct Cites;

impl ElementReader for Cites {
    type Element = u32;

    ghost valid = { λ s. Unit {0} };

    ghost step = { λ s. cite_at };

    #[tactic(auto, unfolding(crate::specs::ListReading::cite_at))]
    fn element_at<'a>(
        &self,
        low: u64,
        fields: Fields<'a>,
    ) -> Result<(u32, u64, Fields<'a>), LineError> {
        let (cite, rest) = number_at(fields)?;
        if u64::from(cite) < low {
            return Err(LineError::Bad(CertCause::BadOrder));
        }
        Ok((cite, u64::from(cite) + 1, rest))
    }
}

/// Choices of a path, each with the number of a line.
#[derive(Clone, Copy)]
pub(crate) struct Children<'i> {
    pub instance: &'i Instance,
    pub path: u16,
}

impl<'i> ElementReader for Children<'i> {
    type Element = Child;

    ghost valid = { λ s. IsInstance s.instance.now × (s.path < length s.instance.now.paths) };

    ghost step = { λ s. child_at s.instance.now s.path };

    #[tactic(auto, unfolding(crate::specs::ListReading::child_at))]
    fn element_at<'a>(
        &self,
        low: u64,
        fields: Fields<'a>,
    ) -> Result<(Child, u64, Fields<'a>), LineError> {
        let (choice, rest) = index_at(self.instance, self.path, fields)?;
        if u64::from(choice) < low {
            return Err(LineError::Bad(CertCause::BadOrder));
        }
        let (cite, rest) = number_at(rest)?;
        Ok((Child { choice, cite }, u64::from(choice) + 1, rest))
    }
}
