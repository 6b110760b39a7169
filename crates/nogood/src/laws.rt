ghost use Rattle.nogood.specs.LiteralLaws.{JoinsAreBoth, LiteralsStay};

/// Law: two lists have one join, and a plan has its literals exactly where it has those of both.
pub fn joins_are_both()
    ensures { JoinsAreBoth }
{}

/// Law: joining lists of an instance's literals, and leaving a path out, give lists of its
/// literals.
pub fn literals_stay()
    ensures { LiteralsStay }
{}
