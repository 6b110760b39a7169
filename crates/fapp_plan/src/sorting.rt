ghost use Rattle.std.specs.Prelude.{◌≡◌, ◌≢◌, length, AllPairs, IfOk};
ghost use Rattle.std.specs.List.{AllAdjacentBelow};
ghost use Rattle.std.specs.List.Sorted.{IsPermutation};
ghost use Rattle.fapp_plan.specs.Sorting.{IsNotAfter, by_path};

use fapp_model::{Items, Literal, NoMemory};
use std::alloc::Global;

/// Literals of different paths, ascending by their paths' positions.
pub fn sorted_by_path(alloc: Global, literals: &[Literal]) -> Result<Items<Literal>, NoMemory>
    requires { AllPairs (λ a b. a.path ≢ b.path) literals.now }
    ensures { IfOk result (λ sorted. sorted ≡ by_path literals.now) }
{
    let mut sorted = Vec::from_slice(alloc, literals)?;
    sort_literals(&mut sorted);
    Ok(Items::from_vec(sorted))
}

/// Puts literals in order.
fn sort_literals(literals: &mut [Literal])
    ensures same { IsPermutation literals.old literals.new }
    ensures ordered { AllAdjacentBelow IsNotAfter literals.new (length literals.new) }
{
    literals.sort_unstable();
}
