//! The laws of the plain machine.
ghost use Rattle.plain_machine.specs.Alike.{StandAlike};
ghost use Rattle.plain_machine.specs.Answer.{AnswersAreOfSections, AnswersAreOne};
ghost use Rattle.plain_machine.specs.Answer.{AnswersAreWithinBudget, AnswersWithoutFault};
ghost use Rattle.plain_machine.specs.Answer.{NoFaultWithAnswer};
ghost use Rattle.plain_machine.specs.Gathering.{all_inputs, running_values};
ghost use Rattle.plain_machine.specs.Grouping.{MakesGroups};
ghost use Rattle.plain_machine.specs.Reading.{ReadersStandAlike};
ghost use Rattle.plain_machine.specs.Unread.{BudgetsWithoutAccounts, FitsWithoutAccounts};
ghost use Rattle.plain_machine.specs.Unread.{UnreadAccountsAnswerAlike, UnreadAccountsAreAsSafe};
ghost use Rattle.plain_machine.specs.Unread.{UnreadAccountsRunAlike};
ghost use Rattle.plain_machine.specs.Upgrade.{UpgradesRunAlike};
ghost use Rattle.plain_machine.specs.WholeRun.{AnswersAreReached, ComesToItsAnswer};
ghost use Rattle.plain_machine.specs.Widths.{RowsAreAsWideAsTargets};

/// The steps of each program come to what its sections leave, row after row and group after group,
/// within the program's budget; or to a fault where one of them has one.
pub fn runs_come_to_their_answers()
    ensures inputs { ComesToItsAnswer all_inputs }
    ensures running { ComesToItsAnswer running_values }
{}

/// An answer has no more rows than the ledger, and is reached within the budget of its own rows.
pub fn answers_are_reached()
    ensures inputs { AnswersAreReached all_inputs }
    ensures running { AnswersAreReached running_values }
{}

/// The groups are the distinct keys in order of first appearance, each with what the inputs of its
/// members come to.
pub fn groups_are_of_their_members()
    ensures inputs { MakesGroups all_inputs }
    ensures running { MakesGroups running_values }
{}

/// A machine that keeps what is gathered so far stands where one stands that keeps all inputs,
/// after each step.
pub fn running_values_stand_alike()
    ensures { StandAlike }
{}

/// A machine that keeps what is gathered so far, and the running inventory only for programs that
/// read it, stands there too, after each step, where none is a fault.
pub fn readers_alone_need_the_running_inventory()
    ensures { ReadersStandAlike }
{}

/// A program has an answer over rows exactly where it never faults there, and has no other. Its
/// rows are those to which its sections come, and it is reached within the budget of the rows and
/// of the groups that they make.
pub fn programs_have_one_answer()
    ensures there { AnswersWithoutFault }
    ensures safe { NoFaultWithAnswer }
    ensures one { AnswersAreOne }
    ensures sections { AnswersAreOfSections }
    ensures budget { AnswersAreWithinBudget }
{}

/// A program that names the columns of its schema stands, when it is brought to the second version,
/// after each step where it stood before.
pub fn upgrades_run_alike()
    ensures { UpgradesRunAlike }
{}

/// A program that doesn't read the accounts of transactions does the same over a ledger without
/// them: after each step it stands where it would, it has the same answer and is as safe. Whatever
/// a program reads, they don't change whether an answer is within its budget, nor whether the rows
/// are within bounds.
pub fn unread_accounts_may_be_left_out()
    ensures run { UnreadAccountsRunAlike }
    ensures answers { UnreadAccountsAnswerAlike }
    ensures safe { UnreadAccountsAreAsSafe }
    ensures budget { BudgetsWithoutAccounts }
    ensures bounds { FitsWithoutAccounts }
{}

/// Each row of a program's answer, over whatever rows, has a value for each target: a section that
/// leaves another number of values than the program states is a fault.
pub fn rows_are_as_wide_as_their_targets()
    ensures { RowsAreAsWideAsTargets }
{}
