//! A law of what becomes of programs.
ghost use Rattle.query_fates.specs.Unread.{FilesFareAlike, UnreadAccountsFareAlike};

/// What becomes of programs, none of which reads the accounts of transactions, is the same over a
/// ledger without them as over the ledger as it is, and the other way round. So it is with the
/// programs of files.
pub fn unread_accounts_may_be_left_out()
    ensures programs { UnreadAccountsFareAlike }
    ensures files { FilesFareAlike }
{}
