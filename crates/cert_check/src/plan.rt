//! The first fault of a plan.

ghost use Rattle.std.specs.Prelude.{◌≡◌, ◌<◌, ◌==◌, IsTrue, length};
ghost use Rattle.std.specs.Option.{option_map};
ghost use Rattle.std.specs.List.{list_any, list_all, range_with_len};
ghost use Rattle.fapp_model.specs.Assignments.{chosen, path_at};
ghost use Rattle.fapp_model.specs.Choices.{choices};
ghost use Rattle.fapp_model.specs.Instances.{IsInstance, IsPath};
ghost use Rattle.cert_lines.specs.acceptance.LineFaults.{rejected_at, cause_unless};
ghost use Rattle.cert_lines.specs.declared.reject.RejectCause.TheVariants.{AssignmentLength};
ghost use Rattle.cert_lines.specs.acceptance.PlanFaults.{is_same_choice, is_same_triple, is_offered, all_offered, indices, cost_fault, shown_fault, demanded, plan_fault};
ghost use Rattle.cert_check.specs.PlanCost.{IsCostOf};

use crate::acceptance::rejected_at;
use cert_lines::{Answer, RejectCause, Rejected, Verdict};
use fapp_model::{
    Choice, Instance, MAX_LEVELS, Path, Triple, add_violations, choice_at, choice_count, levels,
    triple_of_counts,
};

fn is_same_choice(a: Choice, b: Choice) -> bool
    ensures { result ≡ is_same_choice a b }
{
    a.freq == b.freq && a.pol == b.pol
}

fn is_same_triple(t: Triple, u: Triple) -> bool
    ensures { result ≡ is_same_triple t u }
{
    t.k == u.k && (t.v == u.v && t.s == u.s)
}

/// What a plan has for a position.
fn chosen_at(_instance: &Instance, shown: &[Choice], position: u16) -> Choice
    requires whole { length shown.now ≡ length _instance.now.paths }
    requires offered { IsTrue (all_offered _instance.now shown.now) }
    requires position { position < length _instance.now.paths }
    ensures { result ≡ chosen _instance.now (indices _instance.now shown.now) position }
{
    shown[position as usize]
}

/// What a plan costs, by its choices, each one of its path's. `None` where it breaks an imperative
/// record.
fn cost(instance: &Instance, shown: &[Choice]) -> Option<Triple>
    requires instance { IsInstance instance.now }
    requires whole { length shown.now ≡ length instance.now.paths }
    requires offered { IsTrue (all_offered instance.now shown.now) }
    ensures { IsCostOf instance.now (indices instance.now shown.now) result }
{
    let levels = levels(instance);
    let mut counts = [0; MAX_LEVELS as usize];
    for record in instance.records.as_slice() {
        let first = chosen_at(instance, shown, record.first_path());
        let second = chosen_at(instance, shown, record.second_path());
        if record.is_broken(first, second) {
            return None;
        }
        add_violations(&mut counts, levels, record, first, second);
    }
    Some(triple_of_counts(&counts, levels))
}

/// Whether a choice is one of a path's.
fn is_offered(path: &Path, c: Choice) -> bool
    requires { IsPath path.now }
    ensures { result ≡ is_offered path.now c }
{
    for index in 0..choice_count(path) {
        if is_same_choice(c, choice_at(path, index)) {
            return true;
        }
    }
    false
}

fn all_offered(instance: &Instance, shown: &[Choice]) -> bool
    requires instance { IsInstance instance.now }
    requires whole { length shown.now ≡ length instance.now.paths }
    ensures { result ≡ all_offered instance.now shown.now }
{
    for position in 0..shown.len() {
        if !is_offered(&instance.paths.as_slice()[position], shown[position]) {
            return false;
        }
    }
    true
}

fn cost_fault(claimed: Triple, found: Triple) -> Option<RejectCause>
    ensures { result ≡ cost_fault claimed found }
{
    if is_same_triple(claimed, found) {
        None
    } else {
        Some(RejectCause::TripleDiffers { claimed, found })
    }
}

/// The first fault of a plan that is to cost so much.
fn shown_fault(instance: &Instance, shown: &[Choice], claimed: Triple) -> Option<RejectCause>
    requires { IsInstance instance.now }
    ensures { result ≡ shown_fault instance.now shown.now claimed }
{
    if shown.len() != instance.paths.len() {
        return Some(RejectCause::AssignmentLength);
    }
    if !all_offered(instance, shown) {
        return Some(RejectCause::ChoiceNotInDomain);
    }
    match cost(instance, shown) {
        None => Some(RejectCause::ImperativeBroken),
        Some(found) => cost_fault(claimed, found),
    }
}

fn demanded(instance: &Instance, verdict: &Verdict) -> Option<Triple>
    ensures { result ≡ demanded instance.now verdict.now }
{
    match verdict {
        Verdict::Best(t) => Some(*t),
        Verdict::NoneFeasible => None,
        Verdict::Open { best, .. } => {
            let top = Triple {
                k: levels(instance) + 1,
                v: 0,
                s: 0,
            };
            if is_same_triple(*best, top) {
                None
            } else {
                Some(*best)
            }
        }
    }
}

/// The first fault of an answer's plan.
#[tactic(auto, unfolding(cert_lines::specs::acceptance::PlanFaults::plan_fault))]
pub fn judge_plan(instance: &Instance, answer: &Answer) -> Option<Rejected>
    requires { IsInstance instance.now }
    ensures { result ≡ option_map (rejected_at 0)
        (plan_fault instance.now answer.now.plan answer.now.verdict) }
{
    let shown = answer.plan.as_slice();
    let cause = match demanded(instance, &answer.verdict) {
        Some(claimed) => shown_fault(instance, shown, claimed),
        None => none_fault(shown),
    };
    rejected_at(0, cause)
}

/// The fault of a plan where none is demanded.
fn none_fault(shown: &[Choice]) -> Option<RejectCause>
    ensures { result ≡ cause_unless (length shown.now == 0) AssignmentLength }
{
    if shown.is_empty() {
        None
    } else {
        Some(RejectCause::AssignmentLength)
    }
}
