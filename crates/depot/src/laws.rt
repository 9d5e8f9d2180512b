// The laws of a depot's calls, each the contract of a function that has nothing else to do.
ghost use Rattle.depot.specs.Laws.{LowestRefusalAnswers, OpenedSlipIsGiven, SpentSlipNamesNoDraft};
ghost use Rattle.depot.specs.Sending.{LowestSendingRefusalAnswers};

// Each list of refusals ascends by number.
pub fn lowest_refusal_answers()
    ensures { LowestRefusalAnswers }
{}

// The same of sending.
pub fn lowest_sending_refusal_answers()
    ensures { LowestSendingRefusalAnswers }
{}

// A slip is for one draft, and is spent with it.
pub fn spent_slip_names_no_draft()
    ensures given { OpenedSlipIsGiven }
    ensures spent { SpentSlipNamesNoDraft }
{}
