ghost use Rattle.gen_laws.specs.MadeLaws.{MadeNetworksAreInstances, MadeNetworksAreShort};

/// The text of the network that a number makes is that of an instance, which has as many paths as
/// were asked for, and four records for each path after the second, and two.
pub fn made_networks_are_instances()
    ensures { MadeNetworksAreInstances }
{}

/// The text of a made network has at most ten million bytes.
pub fn made_networks_are_short()
    ensures { MadeNetworksAreShort }
{}
