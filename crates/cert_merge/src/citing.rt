// Which line is the last to cite another, and what each line so ends.
ghost use Rattle.std.specs.Prelude.{◌≡◌, ℕ, ◌+◌, ◌<◌, ◌≤◌, length, map, All, IfOk};
ghost use Rattle.fapp_model.specs.declared.limits.TheConstants.{MAX_NUMBER};
ghost use Rattle.cert_lines.specs.Renumbering.{cited};
ghost use Rattle.accept_laws.specs.Compacting.{IsCompactable};
ghost use Rattle.cert_merge.specs.Compacting.{AreEnded, AreLast, noted};

use crate::merged::no_numbers;
use cert_lines::{Child, Line, Rule};
use fapp_model::{Items, MAX_NUMBER, NoMemory};
use std::alloc::Global;

/// Puts a number at some places of a table.
fn note_numbers(last: &mut [u32], cites: &[u32], n: u32)
    requires { All (λ k. k < length last.old) cites.now }
    ensures { last.new ≡ noted last.old n cites.now }
{
    for cite in cites {
        last[*cite as usize] = n;
    }
}

/// Puts a number at the places that children cite.
fn note_children(last: &mut [u32], children: &[Child], n: u32)
    requires { All (λ child. child.cite < length last.old) children.now }
    ensures { last.new ≡ noted last.old n (map (λ child. child.cite) children.now) }
{
    for child in children {
        last[child.cite as usize] = n;
    }
}

/// Puts a number at the places that a rule cites.
fn note_rule(last: &mut [u32], rule: &Rule, n: u32)
    requires { All (λ k. k < length last.old) (cited rule.now) }
    ensures { last.new ≡ noted last.old n (cited rule.now) }
{
    match rule {
        Rule::Count { cites } => note_numbers(last, cites.as_slice(), n),
        Rule::Branch { children, .. } => note_children(last, children.as_slice(), n),
        Rule::Delete { .. } => {}
    }
}

/// For each line the last one that cites it, or 0.
pub(crate) fn last_cites(alloc: Global, lines: &[Line]) -> Result<Vec<u32>, NoMemory>
    requires few { length lines.now ≤ MAX_NUMBER }
    requires cites { (n : ℕ) → 0 < n → n ≤ length lines.now → IsCompactable lines.now n }
    ensures { IfOk result (λ last. AreLast lines.now (length lines.now) last.items) }
{
    let mut last = vec![in alloc; 0; lines.len() + 1]?;
    for (place, line) in lines.iter().enumerate() {
        note_rule(&mut last, &line.rule, place as u32 + 1);
    }
    Ok(last)
}

/// For each line those of two or more literals that it is the last to cite, in their order.
pub(crate) fn ended_rows(
    alloc: Global,
    lines: &[Line],
    last: &[u32],
) -> Result<Vec<Items<u32>>, NoMemory>
    requires few { length lines.now ≤ MAX_NUMBER }
    requires cites { (n : ℕ) → 0 < n → n ≤ length lines.now → IsCompactable lines.now n }
    requires last { AreLast lines.now (length lines.now) last.now }
    ensures { IfOk result (λ rows. AreEnded lines.now rows.items) }
{
    let mut rows = no_numbers(alloc, lines.len() + 1)?;
    for (place, line) in lines.iter().enumerate() {
        let n = last[place + 1];
        if n > 0 && line.lits.len() >= 2 {
            rows[n as usize].push(place as u32 + 1)?;
        }
    }
    Ok(rows)
}
