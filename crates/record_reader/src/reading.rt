ghost use Rattle.std.specs.Prelude.{◌≤◌, length, IfOk};
ghost use Rattle.fapp_model.specs.Instances.{IsInstance};
ghost use Rattle.record_reader.specs.Texts.{instance_of_text};
ghost use Rattle.fapp_text.specs.Reading.{Gives};

use crate::ReadError;
use crate::draft::instance_of;
use crate::reader::read_contents;
use fapp_model::Instance;
use fapp_text::MAX_TEXT;
use std::alloc::Global;

/// Reads the instance of a text of at most `MAX_TEXT` bytes. `Bad` is the first line that is
/// refused for itself or for the lines before it or, where there is none, the first one that the
/// whole text refuses. `NoMemory` comes where room could not be had.
pub fn read_instance(alloc: Global, bytes: &[u8]) -> Result<Instance, ReadError>
    requires { length bytes.now ≤ MAX_TEXT }
    // The instance of the text, or the first line that is refused and why.
    ensures reads { Gives (λ instance. instance) result (instance_of_text bytes.now) }
    ensures valid { IfOk result IsInstance }
{
    let reader = read_contents(alloc, bytes)?;
    instance_of(alloc, &reader)
}
