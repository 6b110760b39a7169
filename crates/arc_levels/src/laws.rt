// Laws over the definitions of this crate. Each is the contract of a function that does nothing.
ghost use Rattle.arc_levels.specs.Outside.{OutsideAtLowerLevels};

/// What is outside the arcs of a level is outside those of each lower one.
pub fn outside_at_lower_levels()
    ensures { OutsideAtLowerLevels }
{}
