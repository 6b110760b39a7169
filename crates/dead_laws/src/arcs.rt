ghost use Rattle.dead_laws.specs.ArcLaws.{ArcsAreSupported, ArcsHaveEach};

/// The arcs of a level are themselves a supported family.
pub fn arcs_are_supported()
    ensures { ArcsAreSupported }
{}

/// Every supported family lies within the arcs of its level.
pub fn arcs_have_each()
    ensures { ArcsHaveEach }
{}
