ghost use Rattle.std.specs.Prelude.{◌≡◌, ◌≤◌, length, true, IfOk};
ghost use Rattle.fapp_model.specs.Instances.{IsInstance};
ghost use Rattle.fapp_model.specs.Least.{IsFeasible};
ghost use Rattle.merge_laws.specs.Conditions.{AreOld};

use cert_check::check;
use cert_lines::{Answer, Line, read_answer};
use fapp_cost::cost;
use fapp_model::{Instance, choice_count};
use record_reader::read_instance;
use std::alloc::Global;
use std::test::Fail;

mod going_on;
mod placing;
mod starts;

fn read(alloc: Global, text: &str) -> Result<Instance, Fail>
    requires { length text.now ≤ 1000 }
    ensures { IfOk result IsInstance }
{
    match read_instance(alloc, text.as_bytes()) {
        Ok(instance) => Ok(instance),
        Err(_) => Err("unread".into()),
    }
}

/// The lines of an answer that is accepted.
fn accepted(alloc: Global, instance: &Instance, bytes: &[u8]) -> Result<Vec<Line>, Fail>
    requires instance { IsInstance instance.now }
    ensures { IfOk result (λ lines. AreOld instance.now lines.items) }
{
    if bytes.len() > 1000 {
        return Err("a long answer".into());
    }
    let Ok(answer) = read_answer(alloc, instance, bytes) else {
        return Err("no answer".into());
    };
    if answer.lines.len() > 1000 {
        return Err("many lines".into());
    }
    let Ok(()) = check(alloc, instance, &answer) else {
        return Err("refused".into());
    };
    if answer.version != 1 {
        return Err("a later version".into());
    }
    let Answer {
        plan: _,
        verdict: _,
        version: _,
        lines,
    } = answer;
    Ok(lines.into_vec())
}

/// Whether it is an assignment that breaks no imperative record.
fn is_feasible(instance: &Instance, plan: &[u16]) -> bool
    requires { IsInstance instance.now }
    ensures { result ≡ true → IsFeasible instance.now plan.now }
{
    if plan.len() != instance.paths.len() {
        return false;
    }
    for position in 0..plan.len() {
        if u32::from(plan[position]) >= choice_count(&instance.paths.as_slice()[position]) {
            return false;
        }
    }
    cost(instance, plan).is_some()
}
