ghost use Rattle.std.specs.Prelude.{◌≡◌, IfOk};
ghost use Rattle.fapp_model.specs.Instances.{IsInstance};
ghost use Rattle.fapp_model.specs.Assignments.{IsAssignment};
ghost use Rattle.accept_laws.specs.ShownPlans.{shown};

use fapp_io::NoMemory;
use fapp_model::{Choice, Instance, chosen};
use std::alloc::Global;

/// The frequency and the polarization of each path.
pub fn shown(alloc: Global, instance: &Instance, plan: &[u16]) -> Result<Vec<Choice>, NoMemory>
    requires instance { IsInstance instance.now }
    requires plan { IsAssignment instance.now plan.now }
    ensures { IfOk result (λ choices. choices.items ≡ shown instance.now plan.now) }
{
    let mut choices = Vec::new(alloc);
    for position in 0..plan.len() {
        choices.push(chosen(instance, plan, position as u16))?;
    }
    Ok(choices)
}
