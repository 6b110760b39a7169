ghost use Rattle.fapp_plan.specs.PlanLaws.{LiteralsByPath, OneVerdict};

/// Literals of different paths, sorted by path, are the same ones and ascend.
pub fn literals_by_path()
    ensures { LiteralsByPath }
{}

/// The verdict's rule gives one verdict.
pub fn one_verdict()
    ensures { OneVerdict }
{}
