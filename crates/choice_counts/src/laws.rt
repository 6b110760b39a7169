// Laws over the definitions of this crate. Each is the contract of a function that does nothing.
ghost use Rattle.choice_counts.specs.CalmLaws.{AliveIsCalm, DeadIsOverBound, OneBound};

/// Literals that are not dead at a tag are calm at its mode's level.
pub fn alive_is_calm()
    ensures { AliveIsCalm }
{}

/// Calm literals are dead at a tag exactly where it is (0, 0, 0) or its limit is at most their sum.
pub fn dead_is_over_bound()
    ensures { DeadIsOverBound }
{}

/// The sum of a level is one number.
pub fn one_bound()
    ensures { OneBound }
{}
