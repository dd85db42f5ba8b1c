//! The law of turns.
ghost use Rattle.query_batch.specs.Batch.{TurnsAreOnesOwn};

/// After any turns of a batch each run stands where its own turns lead, one after the other, as if
/// it were alone (`query_machine::turns_add_up` says where that is): what one run meets changes no
/// other, and only in a turn of its own it fails.
pub fn runs_stand_by_their_own_turns()
    ensures { TurnsAreOnesOwn }
{}
