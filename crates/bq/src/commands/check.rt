//! `check LEDGER`: the lines of the faults of a ledger, and whether its books are fine.
use crate::commands::ledger::Question;
use crate::given::Given;
use crate::text::Text;
use bean_books::faults_in;
use bean_load::Texts;
use endings::{Refusal, verdict_of};
use fault_printer::FaultLines;
use std::alloc::Global;

/// Which faults are found where texts are booked.
#[derive(Clone, Copy)]
pub struct Checking;

impl Question for Checking {
    ghost use Rattle.bq.specs.Check.{Checks};

    ghost says = { λ _. Checks };

    fn answer<'w>(&self, alloc: Global, texts: Texts) -> Result<Given<'w>, Refusal> {
        let faults = faults_in(alloc, &texts)?;
        let verdict = verdict_of(faults.as_slice());
        let lines = FaultLines::new(texts, faults)?;
        Ok(Given::Told(verdict, Text::of_lines(lines)))
    }
}
