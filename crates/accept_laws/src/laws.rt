ghost use Rattle.accept_laws.specs.Answers.{AcceptanceIsProof, AcceptsByParts};
ghost use Rattle.accept_laws.specs.Lines.{DeadIsJudged, GoodLinesAreImplied, JudgedIsDead};
ghost use Rattle.accept_laws.specs.Renumbering.{GoodBehindOthers};
ghost use Rattle.accept_laws.specs.Compacting.{CompactedLinesAreFormed, CompactedLinesAreGood, StrippedAgain};
ghost use Rattle.accept_laws.specs.Stripping.{StrippedLinesAreFormed, StrippedLinesAreGood};
ghost use Rattle.accept_laws.specs.Deletion.{CompactKeepsAcceptance, StripKeepsAcceptance};
ghost use Rattle.accept_laws.specs.ShownPlans.{FeasiblePlansAreWellShown, NoPlanHasNoFault};

/// Literals that are judged dead are dead by one of the cases, with the excluded choices outside.
pub fn judged_is_dead()
    ensures { JudgedIsDead }
{}

/// At a tag above (0, 0, 0) literals that are dead by one of the cases, with the excluded choices
/// outside, are judged dead.
pub fn dead_is_judged()
    ensures { DeadIsJudged }
{}

/// Where each line of a list is good, no assignment that meets the imperative records and has a
/// line's literals costs less than the line's tag.
pub fn good_lines_are_implied()
    ensures { GoodLinesAreImplied }
{}

/// An answer is accepted exactly where its plan, each of its lines and its root have no fault.
pub fn accepts_by_parts()
    ensures { AcceptsByParts }
{}

/// An accepted answer is right. For a Best verdict the plan is feasible, costs the triple, and no
/// feasible plan costs less; for NoneFeasible no assignment meets the imperative records; for Open
/// no feasible plan costs less than the lower bound, and a shown plan is feasible and costs the
/// shown triple.
pub fn acceptance_is_proof()
    ensures { AcceptanceIsProof }
{}

/// A feasible plan has a text and no fault as it is shown, where the verdict states its cost.
pub fn feasible_plans_are_well_shown()
    ensures { FeasiblePlansAreWellShown }
{}

/// No plan at all has no fault where the verdict shows none.
pub fn no_plan_has_no_fault()
    ensures { NoPlanHasNoFault }
{}

/// Good lines stay good behind other good lines, with cites that count these.
pub fn good_behind_others()
    ensures { GoodBehindOthers }
{}

/// Good lines stay good without the Delete lines.
pub fn stripped_lines_are_good()
    ensures { StrippedLinesAreGood }
{}

/// Good lines stay good with Delete lines for what is cited no more.
pub fn compacted_lines_are_good()
    ensures { CompactedLinesAreGood }
{}

/// An accepted answer is accepted without its Delete lines.
pub fn strip_keeps_acceptance()
    ensures { StripKeepsAcceptance }
{}

/// An accepted answer without Delete lines is accepted with those for what is cited no more.
pub fn compact_keeps_acceptance()
    ensures { CompactKeepsAcceptance }
{}

/// Without the Delete lines that were put in, lines of which none was one are as before, where each
/// cites earlier lines alone, and none at the tag (0, 0, 0).
pub fn stripped_again()
    ensures { StrippedAgain }
{}

/// Good lines stay well formed without the Delete lines.
pub fn stripped_lines_are_formed()
    ensures { StrippedLinesAreFormed }
{}

/// Well formed lines of version 1 are well formed in version 2 with Delete lines for what is cited
/// no more, where each cites earlier lines alone, and none at the tag (0, 0, 0), and there are then
/// at most 1,000,000,000.
pub fn compacted_lines_are_formed()
    ensures { CompactedLinesAreFormed }
{}
