//! Where faults go as they are found.
ghost use Rattle.std.specs.Prelude.{◌≡◌, ◌∷◌, [], OnOk};
ghost use Rattle.bean_accounts.specs.Log as spec;

use bean_base::{Fault, List};
use std::alloc::{AllocError, Global};

/// The faults that were found so far, where anyone asks for them.
#[derive(Drop)]
pub enum FaultLog {
    Kept(List<Fault>),
    /// Nobody asks: nothing is kept, and what only serves to find faults needn't be done.
    Off,
}

impl FaultLog {
    /// A log that keeps faults, with none so far. Takes no memory.
    pub fn new(alloc: Global) -> FaultLog
        ensures { result ≡ FaultLog.Kept [] }
    {
        FaultLog::Kept(List::new(Vec::new(alloc)))
    }

    /// A log that keeps faults where this one does, with none so far. Takes no memory.
    pub fn emptied(&self, alloc: Global) -> FaultLog
        ensures { result ≡ spec.emptied self.now }
    {
        match self {
            FaultLog::Kept(_) => FaultLog::new(alloc),
            FaultLog::Off => FaultLog::Off,
        }
    }

    /// Whether anyone asks for faults.
    pub fn is_kept(&self) -> bool
        ensures { result ≡ spec.is_kept self.now }
    {
        matches!(self, FaultLog::Kept(_))
    }

    /// Adds a fault.
    pub fn add(&mut self, fault: Fault) -> Result<(), AllocError>
        ensures { OnOk result (self.new ≡ spec.with_found (fault ∷ []) self.old) }
    {
        match self {
            FaultLog::Kept(found) => found.push(fault),
            FaultLog::Off => Ok(()),
        }
    }

    /// Adds all of these faults.
    pub fn add_all(&mut self, faults: List<Fault>) -> Result<(), AllocError>
        ensures { OnOk result (self.new ≡ spec.with_found faults self.old) }
    {
        match self {
            FaultLog::Kept(found) => found.append(faults),
            FaultLog::Off => Ok(()),
        }
    }

    /// Adds what another log kept.
    pub fn join(&mut self, other: FaultLog) -> Result<(), AllocError>
        ensures { OnOk result (self.new ≡ spec.with_found (spec.found other) self.old) }
    {
        match other {
            FaultLog::Kept(found) => self.add_all(found),
            FaultLog::Off => Ok(()),
        }
    }

    /// The faults that were found: none where nobody asks.
    pub fn into_found(self, alloc: Global) -> List<Fault>
        ensures { result ≡ spec.found self }
    {
        match self {
            FaultLog::Kept(found) => found,
            FaultLog::Off => List::new(Vec::new(alloc)),
        }
    }
}
