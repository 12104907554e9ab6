//! Which of the justfiles that are tried answers, what a dry run leaves undone, and what words ask for that are chosen.
ghost use Rattle.just_cli.specs.Childless.{RunsNoChild};
ghost use Rattle.just_cli.specs.ChosenRuns.{ChoicesAreRuns};
ghost use Rattle.just_cli.specs.DryPlans.{DryPlansAgree};
ghost use Rattle.just_cli.specs.DryRecords.{DryRunsRunNothing};
ghost use Rattle.just_cli.specs.Whole.{FirstAnswers};

/// Over a told world the answer of the justfiles that are tried is that of the first in the whole list of those that `fallback` leads to that lacks nothing of what is asked
/// for, or of the last of them. It does nothing; its contract is a law.
pub fn first_answers()
    ensures { FirstAnswers }
{}

/// A dry run runs no child: of arguments without a command that ask for one, whatever they come to and whatever was begun of them, nothing is done beside what is
/// looked at but temporary folders that are made. It does nothing; its contract is a law.
pub fn dry_runs_run_no_child()
    ensures { RunsNoChild }
{}

/// However words end that ask for a dry run, they leave nothing in the record but texts that are printed, temporary folders, misses and failures: nothing is asked,
/// looked at or saved for a body, and no child is run. It does nothing; its contract is a law.
pub fn dry_runs_run_nothing()
    ensures { DryRunsRunNothing }
{}

/// A dry run plans what a run does: where no dotenv command is set, what a project gives as the plan of a run it gives for a dry run too, and the other way round, but
/// for questions and echoes. It does nothing; its contract is a law.
pub fn dry_runs_plan_the_same()
    ensures { DryPlansAgree }
{}

/// Words that are chosen ask for one run: what they ask for behind the project that a chooser was fed is what a run of those words asks for in its place. It does
/// nothing; its contract is a law.
pub fn choices_are_runs()
    ensures { ChoicesAreRuns }
{}
