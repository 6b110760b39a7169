ghost use Rattle.dead_laws.specs.ExampleLaws.{EachThreeDie, ExamplesAreValid, OneChoiceLives, TiedPairArcs, TiedPairRoots, UnlikeSum, UnlikeTags};

/// The examples are instances.
pub fn examples_are_valid()
    ensures { ExamplesAreValid }
{}

/// The arcs of two paths whose equal polarizations are demanded, although they are too close.
pub fn tied_pair_arcs()
    ensures { TiedPairArcs }
{}

/// The levels at which each of the two has a choice in the arcs.
pub fn tied_pair_roots()
    ensures { TiedPairRoots }
{}

/// One choice of three paths with two frequencies leaves the others a choice.
pub fn one_choice_lives()
    ensures { OneChoiceLives }
{}

/// The tags at which two unlike choices of three paths are dead.
pub fn unlike_tags()
    ensures { UnlikeTags }
{}

/// The violations that they leave at least.
pub fn unlike_sum()
    ensures { UnlikeSum }
{}

/// The tags at which choices of all three paths are dead.
pub fn each_three_die()
    ensures { EachThreeDie }
{}
