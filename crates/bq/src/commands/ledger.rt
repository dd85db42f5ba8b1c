//! What the commands share that ask about a ledger.
ghost use Rattle.bean_load.specs.Texts as gathered;
ghost use Rattle.bq.specs.Due.{ComesTo, End};
ghost use Rattle.bq.specs.Ledgers.{about_ledger};
ghost use Rattle.bq.specs.Runs.{Finds};

use crate::given::Given;
use bean_load::{Texts, gather};
use endings::Refusal;
use std::alloc::Global;
use stores::Source;

/// What is asked about a ledger.
pub trait Question {
    ghost says: { Self → gathered.Texts → End → Type 0 };

    /// What comes of its texts.
    fn answer<'w>(&self, alloc: Global, texts: Texts) -> Result<Given<'w>, Refusal>
        ensures { ComesTo (says self.now texts) result };
}

/// What comes of the texts of the ledger of that name.
pub fn answer_about<'w, S: Source, Q: Question>(
    alloc: Global,
    question: &Q,
    ledger: &str,
    store: &mut S,
) -> Result<Given<'w>, Refusal>
    ensures { Finds S.Source store.old store.new (about_ledger
        (Q.Question.says question.now) ledger.now) result }
{
    let texts = gather(alloc, store, ledger)?;
    question.answer(alloc, texts)
}
