ghost use Rattle.fapp_model.specs.Instances.{IsInstance};
ghost use Rattle.fapp_model.specs.Assignments.{IsAssignment};
ghost use Rattle.fapp_cost.specs.PlanCost.{IsCostOf};

use fapp_model::{Instance, MAX_LEVELS, Triple, add_violations, chosen, levels, triple_of_counts};

/// The cost of a plan, which has one choice index for each path. `None` where it breaks an
/// imperative record.
pub fn cost(instance: &Instance, plan: &[u16]) -> Option<Triple>
    requires instance { IsInstance instance.now }
    requires plan { IsAssignment instance.now plan.now }
    ensures { IsCostOf instance.now plan.now result }
{
    let levels = levels(instance);
    let mut counts = [0; MAX_LEVELS as usize];
    for record in instance.records.as_slice() {
        let first = chosen(instance, plan, record.first_path());
        let second = chosen(instance, plan, record.second_path());
        if record.is_broken(first, second) {
            return None;
        }
        add_violations(&mut counts, levels, record, first, second);
    }
    Some(triple_of_counts(&counts, levels))
}
