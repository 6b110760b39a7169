// Laws over the definitions that everything rests on. Each is the contract of a function that does
// nothing.
ghost use Rattle.fapp_model.specs.ModelLaws.{CodesFollowTags, LimitsAre, LiteralsArePartial, OneWorkOrder};

/// The limits, as numbers.
pub fn limits_are()
    ensures { LimitsAre }
{}

/// Tags are ordered as their codes, and each gives the other back.
pub fn codes_follow_tags()
    ensures { CodesFollowTags }
{}

/// Literals that ascend by path are a partial assignment: they name each path once.
pub fn literals_are_partial()
    ensures { LiteralsArePartial }
{}

/// An instance has one work order, which is as long as its list of paths.
pub fn one_work_order()
    ensures { OneWorkOrder }
{}
