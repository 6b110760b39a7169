//! The text of an answer, and of its parts.

ghost use Rattle.std.specs.Prelude.{◌≡◌, ◌≤◌, ◌++◌, [], ◌∷◌, length, flat_map, IfOk, OnOk, decimal, codes};
ghost use Rattle.std.specs.Fmt.{signed_decimal};
ghost use Rattle.cert_lines.specs.Spelling.{line_text, triple_numbers, tag_numbers, list_numbers, child_numbers, front_numbers, rule_word, rule_numbers, certificate_fields, verdict_text, version_text, choice_fields, plan_lines, head_text, lines_text, answer_text};
ghost use Rattle.cert_lines.specs.Spaced.{spaced};
ghost use Rattle.cert_lines.specs.WellFormed.{IsWellFormed};

use crate::kept::is_delete;
use crate::{Answer, Child, Line, Rule, Verdict};
use fapp_model::{Choice, Instance, Literal, Path, Tag, Triple, triple_of};
use fapp_text::{NoMemory, push_number, push_signed};
use std::alloc::Global;

/// The text of a well-formed answer. `NoMemory` comes where its room could not be had.
pub fn write_answer(
    alloc: Global,
    instance: &Instance,
    answer: &Answer,
) -> Result<Vec<u8>, NoMemory>
    requires { IsWellFormed instance.now answer.now }
    ensures { IfOk result (λ text. text.items ≡ answer_text instance.now answer.now) }
{
    let mut out = Vec::new(alloc);
    push_head(&mut out, instance, answer)?;
    push_lines(&mut out, answer.lines.as_slice())?;
    out.extend_from_slice(b"END\n")?;
    Ok(out)
}

/// The text of a well-formed answer before its certificate lines. `NoMemory` comes where its room
/// could not be had.
pub fn head_text(alloc: Global, instance: &Instance, answer: &Answer) -> Result<Vec<u8>, NoMemory>
    requires { IsWellFormed instance.now answer.now }
    ensures { IfOk result (λ text. text.items ≡ head_text instance.now answer.now) }
{
    let mut out = Vec::new(alloc);
    push_head(&mut out, instance, answer)?;
    Ok(out)
}

/// The lines of a plan that is no longer than the paths. `NoMemory` comes where their room could
/// not be had.
pub fn plan_text(alloc: Global, instance: &Instance, plan: &[Choice]) -> Result<Vec<u8>, NoMemory>
    requires { length plan.now ≤ length instance.now.paths }
    ensures { IfOk result (λ text. text.items ≡ flat_map line_text
        (plan_lines instance.now.paths plan.now)) }
{
    let mut out = Vec::new(alloc);
    push_plan(&mut out, instance.paths.as_slice(), plan)?;
    Ok(out)
}

/// The text of certificate lines. `NoMemory` comes where its room could not be had.
pub fn lines_text(alloc: Global, lines: &[Line]) -> Result<Vec<u8>, NoMemory>
    ensures { IfOk result (λ text. text.items ≡ lines_text lines.now) }
{
    let mut out = Vec::new(alloc);
    push_lines(&mut out, lines)?;
    Ok(out)
}

/// A verdict's line, with its line feed. `NoMemory` comes where its room could not be had.
pub fn verdict_text(alloc: Global, verdict: &Verdict) -> Result<Vec<u8>, NoMemory>
    ensures { IfOk result (λ text. text.items ≡ verdict_text verdict.now) }
{
    let mut out = Vec::new(alloc);
    push_verdict(&mut out, verdict)?;
    Ok(out)
}

fn push_head(out: &mut Vec<u8>, instance: &Instance, answer: &Answer) -> Result<(), NoMemory>
    requires { length answer.now.plan ≤ length instance.now.paths }
    ensures { OnOk result (out.new.items ≡ out.old.items ++ head_text instance.now answer.now) }
{
    push_plan(out, instance.paths.as_slice(), answer.plan.as_slice())?;
    out.extend_from_slice(b"--\n")?;
    push_verdict(out, &answer.verdict)?;
    push_version(out, answer.version)
}

/// One line for each choice of a plan.
fn push_plan(out: &mut Vec<u8>, paths: &[Path], plan: &[Choice]) -> Result<(), NoMemory>
    requires { length plan.now ≤ length paths.now }
    ensures { OnOk result (out.new.items ≡ out.old.items
        ++ flat_map line_text (plan_lines paths.now plan.now)) }
{
    for (place, choice) in plan.iter().enumerate() {
        push_choice(out, &paths[place], *choice)?;
    }
    Ok(())
}

fn push_choice(out: &mut Vec<u8>, path: &Path, choice: Choice) -> Result<(), NoMemory>
    ensures { OnOk result (out.new.items ≡ out.old.items
        ++ line_text (choice_fields path.now choice)) }
{
    out.extend_from_slice(b"AL")?;
    push_numbers(out, &[path.number, choice.freq])?;
    out.extend_from_slice(b" ")?;
    push_signed(out, choice.pol)?;
    out.extend_from_slice(b"\n")?;
    Ok(())
}

fn push_verdict(out: &mut Vec<u8>, verdict: &Verdict) -> Result<(), NoMemory>
    ensures { OnOk result (out.new.items ≡ out.old.items ++ verdict_text verdict.now) }
{
    match verdict {
        Verdict::Best(t) => push_best(out, *t),
        Verdict::NoneFeasible => {
            out.extend_from_slice(b"NONE\n")?;
            Ok(())
        }
        Verdict::Open {
            best,
            lower,
            level,
            prefix,
        } => push_open(out, *best, *lower, *level, prefix.as_slice()),
    }
}

fn push_best(out: &mut Vec<u8>, t: Triple) -> Result<(), NoMemory>
    ensures { OnOk result (out.new.items ≡ out.old.items ++ verdict_text (Verdict.Best t)) }
{
    out.extend_from_slice(b"BEST")?;
    push_triple(out, t)?;
    out.extend_from_slice(b"\n")?;
    Ok(())
}

fn push_open(
    out: &mut Vec<u8>,
    best: Triple,
    lower: Tag,
    level: u32,
    prefix: &[Literal],
) -> Result<(), NoMemory>
    ensures { OnOk result (out.new.items ≡ out.old.items
        ++ verdict_text (Verdict.Open best lower level prefix.now)) }
{
    out.extend_from_slice(b"OPEN")?;
    push_triple(out, best)?;
    out.extend_from_slice(b" LOWER")?;
    push_triple(out, triple_of(lower))?;
    out.extend_from_slice(b" AT")?;
    push_numbers(out, &[level])?;
    push_literals(out, prefix)?;
    out.extend_from_slice(b"\n")?;
    Ok(())
}

/// The line that says the version, which version 1 has not.
fn push_version(out: &mut Vec<u8>, version: u32) -> Result<(), NoMemory>
    ensures { OnOk result (out.new.items ≡ out.old.items ++ version_text version) }
{
    if version == 2 {
        out.extend_from_slice(b"V 2\n")?;
    }
    Ok(())
}

fn push_lines(out: &mut Vec<u8>, lines: &[Line]) -> Result<(), NoMemory>
    ensures { OnOk result (out.new.items ≡ out.old.items ++ lines_text lines.now) }
{
    for line in lines {
        push_line(out, line)?;
    }
    Ok(())
}

fn push_line(out: &mut Vec<u8>, line: &Line) -> Result<(), NoMemory>
    ensures { OnOk result (out.new.items ≡ out.old.items
        ++ line_text (certificate_fields line.now)) }
{
    out.extend_from_slice(rule_word(&line.rule))?;
    push_front(out, line)?;
    push_rule(out, &line.rule)?;
    out.extend_from_slice(b"\n")?;
    Ok(())
}

/// What stands before a rule's own numbers: the tag and the literals, which a Delete line leaves
/// out.
fn push_front(out: &mut Vec<u8>, line: &Line) -> Result<(), NoMemory>
    ensures { OnOk result (out.new.items ≡ out.old.items
        ++ spaced (front_numbers line.now line.now.rule)) }
{
    if is_delete(&line.rule) {
        return Ok(());
    }
    push_tag_and_literals(out, line)
}

fn push_tag_and_literals(out: &mut Vec<u8>, line: &Line) -> Result<(), NoMemory>
    ensures { OnOk result (out.new.items ≡ out.old.items
        ++ spaced (tag_numbers line.now.tag ++ list_numbers line.now.lits)) }
{
    push_triple(out, triple_of(line.tag))?;
    push_literals(out, line.lits.as_slice())
}

fn rule_word(rule: &Rule) -> &'static [u8]
    ensures { result.now ≡ rule_word rule.now }
{
    match rule {
        Rule::Count { .. } => b"C",
        Rule::Branch { .. } => b"B",
        Rule::Delete { .. } => b"D",
    }
}

fn push_rule(out: &mut Vec<u8>, rule: &Rule) -> Result<(), NoMemory>
    ensures { OnOk result (out.new.items ≡ out.old.items ++ spaced (rule_numbers rule.now)) }
{
    match rule {
        Rule::Count { cites } => push_cites(out, cites.as_slice()),
        Rule::Branch { path, children } => {
            push_numbers(out, &[u32::from(*path)])?;
            push_children(out, children.as_slice())
        }
        Rule::Delete { cites } => push_cites(out, cites.as_slice()),
    }
}

fn push_cites(out: &mut Vec<u8>, cites: &[u32]) -> Result<(), NoMemory>
    ensures { OnOk result (out.new.items ≡ out.old.items ++ spaced (length cites.now ∷ cites.now)) }
{
    push_length(out, cites.len())?;
    push_numbers(out, cites)
}

fn push_children(out: &mut Vec<u8>, children: &[Child]) -> Result<(), NoMemory>
    ensures { OnOk result (out.new.items ≡ out.old.items
        ++ spaced (length children.now ∷ flat_map child_numbers children.now)) }
{
    push_length(out, children.len())?;
    for child in children {
        push_numbers(out, &[u32::from(child.choice), child.cite])?;
    }
    Ok(())
}

fn push_literals(out: &mut Vec<u8>, literals: &[Literal]) -> Result<(), NoMemory>
    ensures { OnOk result (out.new.items ≡ out.old.items ++ spaced (list_numbers literals.now)) }
{
    push_length(out, literals.len())?;
    for literal in literals {
        push_numbers(out, &[u32::from(literal.path), u32::from(literal.choice)])?;
    }
    Ok(())
}

fn push_triple(out: &mut Vec<u8>, t: Triple) -> Result<(), NoMemory>
    ensures { OnOk result (out.new.items ≡ out.old.items ++ spaced (triple_numbers t)) }
{
    push_numbers(out, &[t.k, t.v, t.s])
}

/// Appends numbers, each behind a space.
fn push_numbers(out: &mut Vec<u8>, numbers: &[u32]) -> Result<(), NoMemory>
    ensures { OnOk result (out.new.items ≡ out.old.items ++ spaced numbers.now) }
{
    for number in numbers {
        out.extend_from_slice(b" ")?;
        push_number(out, u64::from(*number))?;
    }
    Ok(())
}

/// Appends how many elements there are, behind a space.
fn push_length(out: &mut Vec<u8>, count: usize) -> Result<(), NoMemory>
    ensures { OnOk result (out.new.items ≡ out.old.items ++ spaced (count ∷ [])) }
{
    out.extend_from_slice(b" ")?;
    push_number(out, count as u64)
}
