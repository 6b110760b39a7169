// What a cost says, as laws over its definition: nothing runs here.
ghost use Rattle.fapp_cost.specs.CostLaws.{CostHasLeastClearLevel, LowerLevelCostsLess, ViolationsBelowDecide};

/// The level of a plan's cost is the least level at which the plan violates nothing.
pub fn cost_has_the_least_clear_level()
    ensures { CostHasLeastClearLevel }
{}

/// Costs are compared by their level first.
pub fn a_lower_level_costs_less()
    ensures { LowerLevelCostsLess }
{}

/// At one level the violations one level below it decide, and then their sum further below.
pub fn violations_below_decide()
    ensures { ViolationsBelowDecide }
{}
