ghost use Rattle.std.specs.Prelude.{◌≡◌, ◌↔◌, All, Contains, IfOk, IsTrue};
ghost use Rattle.nogood.specs.Literals.{IsAscending, Agree, IsJoin, other_paths};
ghost use Rattle.nogood.specs.Partials.{GivesChoice};

use crate::Partial;
use fapp_model::{Items, Literal, NoMemory};
use std::alloc::Global;
use std::marker::Model;

/// Literals of distinct paths, ascending by path: choices that can't all stand in a plan that is
/// wanted. Contracts see the list.
#[derive(Debug, Drop)]
pub struct Nogood {
    literals: Items<Literal>,
}

impl Model for Nogood {
    ghost use Rattle.std.specs.Prelude.{List};
    ghost use Rattle.fapp_model.specs.declared.literal.Literal.{Literal as Member};

    ghost Value = { List Member };

    ghost view = { λ n. n.literals };

    ghost use Rattle.nogood.specs.Literals.{IsAscending as Ascends};

    ghost invariant = { λ n. Ascends n.literals };
}

impl Nogood {
    /// The nogood of some literals.
    pub fn new(alloc: Global, lits: &[Literal]) -> Result<Nogood, NoMemory>
        requires { IsAscending lits.now }
        ensures { IfOk result (λ nogood. nogood ≡ lits.now) }
    {
        let literals = Items::from_vec(Vec::from_slice(alloc, lits)?);
        Ok(Nogood { literals })
    }

    /// The literals, ascending by path.
    pub fn lits(&self) -> &[Literal]
        ensures value { result.now ≡ self.now }
        ensures ascending { IsAscending result.now }
    {
        self.literals.as_slice()
    }

    /// Whether it has a literal.
    pub fn contains(&self, lit: Literal) -> bool
        ensures { IsTrue result ↔ Contains self.now lit }
    {
        self.lits().contains(&lit)
    }

    /// The same literals without that of a path, where it has one.
    pub fn without(&self, alloc: Global, path: u16) -> Result<Nogood, NoMemory>
        ensures { IfOk result (λ nogood. nogood ≡ other_paths path self.now) }
    {
        let mut literals = Vec::from_slice(alloc, self.lits())?;
        literals.retain(|lit| lit.path != path);
        Ok(Nogood {
            literals: Items::from_vec(literals),
        })
    }

    /// The literals of both.
    pub fn join(&self, alloc: Global, other: &Nogood) -> Result<Nogood, NoMemory>
        requires { Agree self.now other.now }
        ensures { IfOk result (IsJoin self.now other.now) }
    {
        let literals = Items::from_vec(merged(alloc, self.lits(), other.lits())?);
        Ok(Nogood { literals })
    }

    /// Whether a partial assignment has each of the literals.
    pub fn is_within(&self, part: &Partial) -> bool
        ensures { IsTrue result ↔ All (GivesChoice part.now) self.now }
    {
        self.lits()
            .iter()
            .all(|lit| part.get(lit.path) == Some(lit.choice))
    }
}

/// The literals of two lists, ascending by path; one that stands in both stands once.
fn merged(alloc: Global, left: &[Literal], right: &[Literal]) -> Result<Vec<Literal>, NoMemory>
    requires left { IsAscending left.now }
    requires right { IsAscending right.now }
    requires agree { Agree left.now right.now }
    ensures { IfOk result (λ literals. IsJoin left.now right.now literals.items) }
{
    let mut literals = Vec::with_capacity(alloc, left.len().saturating_add(right.len()))?;
    let (mut i, mut j) = (0, 0);
    while i < left.len() && j < right.len() {
        let (a, b) = (left[i], right[j]);
        if a.path <= b.path {
            literals.push(a)?;
            i += 1;
            if a.path == b.path {
                j += 1;
            }
        } else {
            literals.push(b)?;
            j += 1;
        }
    }
    literals.extend_from_slice(&left[i..])?;
    literals.extend_from_slice(&right[j..])?;
    Ok(literals)
}
