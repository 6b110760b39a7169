// The lines of the plan's tree, the longest lists first.
ghost use Rattle.std.specs.Prelude.{◌≡◌, ◌≤◌, [], ◌∷◌, ◌++◌, length, map, flat_map, All, IfOk, OnOk};
ghost use Rattle.fapp_model.specs.declared.limits.TheConstants.{MAX_PATH_CHOICES};
ghost use Rattle.fapp_model.specs.declared.instance.Instance.{Instance as Network};
ghost use Rattle.fapp_model.specs.search.Jobs.{job_count, prefixes};
ghost use Rattle.merge_laws.specs.Levels.{emit_tree, longer};
ghost use Rattle.merge_laws.specs.Refuted.{prefix_number};
ghost use Rattle.cert_merge.specs.Growth.{AreStepsOf, AreWithSteps, IsStepOf, deepest, step_paths, with_out};

use crate::merged::Certificate;
use fapp_model::{Items, Literal, NoMemory, Tag};
use fapp_plan::{Collected, Plan, Step};
use std::alloc::Global;

/// A list with one more literal.
fn with_literal(
    alloc: Global,
    list: &[Literal],
    literal: Literal,
) -> Result<Items<Literal>, NoMemory>
    ensures { IfOk result (λ longer. longer ≡ list.now ++ literal ∷ []) }
{
    let mut longer = Vec::with_capacity(alloc, list.len() + 1)?;
    longer.extend_from_slice(list)?;
    longer.push(literal)?;
    Ok(Items::from_vec(longer))
}

/// Adds a list with each choice of the next path.
fn push_longer(
    alloc: Global,
    lists: &mut Vec<Items<Literal>>,
    list: &[Literal],
    step: &Step,
) -> Result<(), NoMemory>
    requires { step.now.choices ≤ MAX_PATH_CHOICES }
    ensures { (instance : Network) → IsStepOf instance step.now →
        OnOk result (lists.new.items ≡ lists.old.items ++ longer instance step.now.path list.now) }
{
    for index in 0..step.choices {
        let literal = Literal {
            path: step.path,
            choice: index as u16,
        };
        lists.push(with_literal(alloc, list, literal)?)?;
    }
    Ok(())
}

/// Each list with each choice of the next path.
fn longer(
    alloc: Global,
    lists: &[Items<Literal>],
    step: &Step,
) -> Result<Vec<Items<Literal>>, NoMemory>
    requires { step.now.choices ≤ MAX_PATH_CHOICES }
    ensures { (instance : Network) → IsStepOf instance step.now →
        IfOk result (λ more. more.items ≡ flat_map (longer instance step.now.path) lists.now) }
{
    let mut more = Vec::new(alloc);
    for list in lists {
        push_longer(alloc, &mut more, list.as_slice(), step)?;
    }
    Ok(more)
}

impl Certificate {
    /// The tree from some lists on: first the lists that are longer along the steps, the longest
    /// first, then a line for each of these lists.
    pub(crate) fn write_tree(
        &mut self,
        plan: &Plan,
        collected: &Collected,
        tag: Tag,
        steps: &[Step],
        lists: &[Items<Literal>],
    ) -> Result<(), NoMemory>
        requires planned { length collected.now ≡ job_count plan.now.instance plan.now.split }
        requires steps { AreStepsOf plan.now.instance steps.now }
        requires apart { AreWithSteps (step_paths steps.now) lists.now }
        requires prefixes { deepest plan.now.instance (step_paths steps.now) lists.now
            ≡ prefixes plan.now.instance plan.now.split }
        ensures { OnOk result (self.new ≡ with_out self.old (emit_tree plan.now.instance tag
            (prefix_number plan.now.instance collected.now tag.code self.old) (step_paths steps.now)
            lists.now self.old.out)) }
    {
        let Some((step, rest)) = steps.split_first() else {
            return self.write_prefixes(plan, collected, tag, lists);
        };
        let longer = longer(self.alloc(), lists, step)?;
        self.write_tree(plan, collected, tag, rest, &longer)?;
        let first = self.len() + 1 - longer.len() as u32;
        self.write_level(tag, step, first, lists)?;
        Ok(())
    }
}
