// What answers say, as laws over their definitions: nothing runs here.
ghost use Rattle.fapp_run.specs.AnswerLaws.{OneCheckStatus, AcceptedIsRight};

/// An input of a check has one status.
pub fn a_check_has_one_status()
    ensures { OneCheckStatus }
{}

/// An accepted input is an instance, a line `--` and the text of an answer to it, and what the
/// answer claims is so. For a Best verdict the shown plan is feasible and costs the triple, and no
/// feasible plan costs less; for NoneFeasible no plan is feasible; for Open no feasible plan costs
/// less than the lower bound, and a shown plan is feasible and costs the shown triple.
pub fn what_is_accepted_is_right()
    ensures { AcceptedIsRight }
{}
