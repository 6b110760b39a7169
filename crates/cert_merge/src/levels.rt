// The lines of the lists of one length.
ghost use Rattle.std.specs.Prelude.{◌≡◌, ◌+◌, ◌*◌, ◌<◌, ◌≤◌, length, map, All, IfOk, OnOk};
ghost use Rattle.std.specs.List.{range_with_len};
ghost use Rattle.fapp_model.specs.declared.limits.TheConstants.{MAX_PATH_CHOICES};
ghost use Rattle.fapp_model.specs.declared.instance.Instance.{Instance as Network};
ghost use Rattle.fapp_model.specs.declared.limits.TheConstants.{MAX_NUMBER};
ghost use Rattle.merge_laws.specs.Levels.{level_line, emit_level};
ghost use Rattle.cert_merge.specs.Growth.{AreOnPathsApart, IsStepOf, children_by, with_out};

use crate::merged::Certificate;
use cert_lines::{Child, Line, Rule};
use fapp_model::{Items, Literal, NoMemory, Tag};
use fapp_plan::{Step, sorted_by_path};
use std::alloc::Global;

/// Children for so many choices, which cite lines one after another, from one on.
fn children_by(alloc: Global, choices: u32, next: u32) -> Result<Items<Child>, NoMemory>
    requires choices { choices ≤ MAX_PATH_CHOICES }
    requires next { next + choices ≤ MAX_NUMBER + 1 }
    ensures { IfOk result (λ children. children ≡ children_by choices next) }
{
    let mut children = Vec::with_capacity(alloc, choices as usize)?;
    for index in 0..choices {
        children.push(Child {
            choice: index as u16,
            cite: next + index,
        })?;
    }
    Ok(Items::from_vec(children))
}

/// The Branch line of a list on the next path.
fn level_line(
    alloc: Global,
    tag: Tag,
    step: &Step,
    next: u32,
    list: &[Literal],
) -> Result<Line, NoMemory>
    requires apart { AreOnPathsApart list.now }
    requires choices { step.now.choices ≤ MAX_PATH_CHOICES }
    requires next { next + step.now.choices ≤ MAX_NUMBER + 1 }
    ensures { (instance : Network) → IsStepOf instance step.now →
        IfOk result (λ line. line ≡ level_line instance tag step.now.path next list.now) }
{
    Ok(Line {
        tag,
        lits: sorted_by_path(alloc, list)?,
        rule: Rule::Branch {
            path: step.path,
            children: children_by(alloc, step.choices, next)?,
        },
    })
}

impl Certificate {
    /// A Branch line on the next path for each list. The children cite the lines from a number on,
    /// one after another.
    pub(crate) fn write_level(
        &mut self,
        tag: Tag,
        step: &Step,
        first: u32,
        lists: &[Items<Literal>],
    ) -> Result<(), NoMemory>
        requires apart { All AreOnPathsApart lists.now }
        requires choices { step.now.choices ≤ MAX_PATH_CHOICES }
        requires numbers { first + length lists.now * step.now.choices ≤ MAX_NUMBER + 1 }
        ensures { (instance : Network) → IsStepOf instance step.now →
            OnOk result (self.new ≡ with_out self.old
            (emit_level instance tag step.now.path first lists.now self.old.out)) }
    {
        let mut next = first;
        for list in lists {
            let line = level_line(self.alloc(), tag, step, next, list.as_slice())?;
            self.add(line)?;
            next += step.choices;
        }
        Ok(())
    }
}
