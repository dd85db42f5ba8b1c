//! The laws of tables.
ghost use Rattle.query_tables.specs.Table.{IsOneTable};
ghost use Rattle.query_tables.specs.Unread.{BoundsWithoutAccounts, FilesAnswerAlike};
ghost use Rattle.query_tables.specs.Unread.{OneProgramTells, OutsideWithoutAccounts};
ghost use Rattle.query_tables.specs.Unread.{UnreadAccountsHaveOneTable, UnreadAccountsHaveOneText};
ghost use Rattle.query_tables.specs.Unread.{UnreadAccountsTabulateAlike};

/// A ledger has one table by each program.
pub fn one_table_each()
    ensures { IsOneTable }
{}

/// A program that doesn't read the accounts of transactions has the same table over a ledger
/// without them as over the ledger as it is, and the other way round. Whatever a program reads,
/// they don't change whether a ledger is within its bounds. So a ledger may be booked without them
/// for a program of which [`verified_program::reads_accounts`] tells that it doesn't. And
/// so it is with what the bytes of a file answer.
pub fn unread_accounts_may_be_left_out()
    ensures table { UnreadAccountsHaveOneTable }
    ensures bounds { BoundsWithoutAccounts }
    ensures result { UnreadAccountsTabulateAlike }
    ensures one { OneProgramTells }
    ensures text { UnreadAccountsHaveOneText }
    ensures outside { OutsideWithoutAccounts }
    ensures answers { FilesAnswerAlike }
{}
