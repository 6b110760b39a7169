ghost use Rattle.std.specs.Prelude.{◌≤◌, length, IfOk};
ghost use Rattle.fapp_model.specs.Instances.{IsInstance};

use fapp_model::Instance;
use record_reader::read_instance;
use std::alloc::Global;
use std::test::Fail;

mod counting;
mod merges;
mod workers;
mod works;

// One path of one choice.
const SINGLE: &str = "DM 1 5\nTR 9 1 -1\n";

// One of two choices of the first path is far from the second path's.
const EDGE: &str =
    "DM 1 10\nDM 1 20\nDM 2 10\nTR 1 1 1\nTR 2 2 1\nCE 1 2 10 10 10 10 10 10 10 10 10 10 10\n";

// Three paths of which each two need different frequencies, and two frequencies.
const CLASH: &str =
    "DM 1 10\nDM 1 20\nTR 1 1 1\nTR 2 1 1\nTR 3 1 1\nCI 1 2 F I 0\nCI 1 3 F I 0\nCI 2 3 F I 0\n";

fn read(alloc: Global, text: &str) -> Result<Instance, Fail>
    requires { length text.now ≤ 1000 }
    ensures { IfOk result IsInstance }
{
    match read_instance(alloc, text.as_bytes()) {
        Ok(instance) => Ok(instance),
        Err(_) => Err("unread".into()),
    }
}
