// The laws of the definitions, each the contract of a function that does nothing else.
ghost use Rattle.model.specs.Always.{KeptAlways};
ghost use Rattle.model.specs.Idle.{SlackIsGreatest, SlackIsIdleTicks};
ghost use Rattle.model.specs.MachineExamples.{MachineExamples};
ghost use Rattle.model.specs.Promise.{EveryRunKeepsThePromise};
ghost use Rattle.model.specs.Responses.{ResponseIsLeast};
ghost use Rattle.model.specs.Settled.{ChoiceSettlesRuns};
ghost use Rattle.model.specs.Totals.{TotalsBalance};
ghost use Rattle.model.specs.Worked.{WorkedExamples};

/// A response time is the least number of ticks that suffices.
pub fn response_is_least()
    ensures { ResponseIsLeast }
{}

/// The slack of a row is the number of idle ticks in its window.
pub fn slack_is_idle_ticks()
    ensures { SlackIsIdleTicks }
{}

/// The slack of a row is the greatest of what any number of ticks in its window has to spare.
pub fn slack_is_greatest()
    ensures { SlackIsGreatest }
{}

/// The worked examples come out as reckoned by hand.
pub fn worked_examples()
    ensures { WorkedExamples }
{}

/// From the start through every step no row's slack is below 0 and no job is overdue, and the slack is at least 1
/// exactly where a tick can be spared.
pub fn kept_always()
    ensures { KeptAlways }
{}

/// Every run from any state that a machine can be in meets its deadlines, spares every tick that it can to an errand,
/// and balances its accounts.
pub fn every_run_keeps_the_promise()
    ensures { EveryRunKeepsThePromise }
{}

/// Nothing but the queue's choice is open in a run.
pub fn choice_settles_runs()
    ensures { ChoiceSettlesRuns }
{}

/// In every run the units that came in, over all errands, are those that went out and those that still wait.
pub fn totals_balance()
    ensures { TotalsBalance }
{}

/// A run worked out in full, and a state without slack with the lawful future that misses.
pub fn machine_examples()
    ensures { MachineExamples }
{}
