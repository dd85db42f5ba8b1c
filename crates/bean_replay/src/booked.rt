//! What a ledger is booked as.
ghost use Rattle.std.specs.Prelude.{◌≡◌, ◌≢◌, ◌≤◌, ◌^◌, ◌++◌, [], ℕ, IfOk, OnOk, length, reverse};
ghost use Rattle.std.specs.Prelude as prelude;
ghost use Rattle.std.specs.List.{AllByRecursion};
ghost use Rattle.bean_replay.specs.Booked as spec;
ghost use Rattle.bean_replay.specs.Booked.{HasTooMany, IsBooked, IsFinished};
ghost use Rattle.bean_pad.specs.Note.{noted_pads};
ghost use Rattle.bean_replay.specs.Booker.{IsLed, Stands, Wherever};
ghost use Rattle.bean_replay.specs.Stand.{IsFull, LeadsTo, Stand};
ghost use Rattle.bean_replay.specs.Small.{IsSmallNoted};
ghost use Rattle.bean_loaded.specs.Loaded as loading;
ghost use Rattle.bean_loaded.specs.Limited.{IsSmall};
ghost use Rattle.bean_loaded.specs.declared.placed.Placed as places;
ghost use Rattle.bean_directives.specs.declared.directive.Directive as directives;
ghost use Rattle.bean_reductions.specs.declared.reduction.Method.{Method};
ghost use Rattle.bean_accounts.specs.Log.{is_kept, with_found};
ghost use Rattle.bean_accounts.specs.Methods.{method_in};
ghost use Rattle.bean_accounts.specs.declared.log.FaultLog as logs;

use crate::booker::Booker;
use crate::bookings::Bookings;
use crate::cause::BookCause;
use crate::handed::take_into;
use crate::methods::{methods_of, note_unknown, otherwise};
use crate::steps::are_watched;
use bean_accounts::{FaultLog, Methods};
use bean_base::List;
use bean_directives::ApartDirective;
use bean_loaded::{Loaded, Placed};
use bean_pad::NotedPad;
use refusals::Refusal;
use std::alloc::{AllocError, Global};

/// What a ledger is booked as.
#[derive(Drop)]
pub struct Booked<'a, S> {
    /// What has taken all that is booked, in the order of the directives.
    pub bookings: S,
    /// The pads in their order, each with what comes of it.
    pub pads: List<NotedPad<'a>>,
    /// All that is wrong, in no order, behind what the log had before, where anyone asks for it.
    pub faults: FaultLog,
}

/// Where all directives led: what is known of what was booked, and what has taken it.
#[derive(Drop)]
struct Led<'a, S> {
    booker: Booker<'a>,
    bookings: S,
}

/// Takes all directives. Each is given up as soon as it is taken, and what is booked of it once it is
/// handed over, small transactions many at once. Faults are kept where a log keeps them.
fn take_all<'a, S: Bookings<'a> + Drop>(
    alloc: Global,
    methods: Methods<'a>,
    directives: Vec<Placed<ApartDirective<'a>>>,
    asked: &FaultLog,
    bookings: S,
) -> Result<Led<'a, S>, Refusal<BookCause>>
    requires few { length directives.items ≤ 2 ^ 39 }
    requires small { AllByRecursion IsSmall directives.items }
    requires new { S.has_taken bookings [] }
    ensures stands { IfOk result (λ led. Stands led.booker) }
    ensures asked { IfOk result (λ led. is_kept led.booker.faults ≡ is_kept asked.now) }
    ensures leads { IfOk result (λ led. (m : prelude.List ℕ → Method)
        → ((a : prelude.List ℕ) → m a ≡ method_in methods.entry a)
        → (st : Stand) × IsLed S.Bookings m (reverse directives.entry.items) st led.booker
        led.bookings) }
    ensures full { result ≡ prelude.Err (Refusal.Refused BookCause.TooManyPostings)
        → (m : prelude.List ℕ → Method)
        → ((a : prelude.List ℕ) → m a ≡ method_in methods.entry a) → (st : Stand)
        → LeadsTo m (reverse directives.entry.items) st → IsFull st }
{
    let watched = are_watched(&directives);
    let mut booker = Booker::new(alloc, methods, watched, asked);
    let mut bookings = bookings;
    for placed in directives {
        match take_into(&mut booker, &mut bookings, placed) {
            Ok(()) => {}
            Err(fault) => return Err(fault),
        }
    }
    Ok(Led { booker, bookings })
}

/// Adds the faults that are found before the first directive is taken: those of texts, and those of
/// lines of methods.
fn note_before(alloc: Global, loaded: &Loaded<'_>, faults: &mut FaultLog) -> Result<(), AllocError>
    ensures { OnOk result (faults.new ≡ with_found (spec.faults_before loaded.now) faults.old) }
{
    if !faults.is_kept() {
        return Ok(());
    }
    let mut told = Vec::new(alloc);
    told.extend_from_slice(loaded.faults())?;
    faults.add_all(List::new(told))?;
    note_unknown(loaded.methods(), faults)
}

/// What comes of the pads, once all directives are taken, and the faults, behind those that were found
/// before.
fn finish_found<'a>(
    found: FaultLog,
    booker: Booker<'a>,
) -> Result<(List<NotedPad<'a>>, FaultLog), AllocError>
    requires { Stands booker }
    ensures { Wherever booker.entry (λ m past st. (l : loading.Loaded) (before : logs.FaultLog)
        → found ≡ with_found (spec.faults_before l) before
        → is_kept booker.entry.faults ≡ is_kept before
        → IfOk result (λ r. (r.0 ≡ noted_pads st.steps)
        × (r.1 ≡ with_found (spec.faults_of l st) before))) }
{
    let (padder, own) = booker.into_found();
    let mut faults = found;
    faults.join(own)?;
    let padded = padder.finish()?;
    faults.add_all(padded.faults)?;
    Ok((padded.pads, faults))
}

/// Puts together what is found, once all directives are taken, with the faults that were found
/// before.
fn finish<'a, S: Bookings<'a> + Drop>(
    found: FaultLog,
    led: Led<'a, S>,
) -> Result<Booked<'a, S>, Refusal<BookCause>>
    requires { Stands led.booker }
    ensures booked { (l : loading.Loaded) (before : logs.FaultLog)
        → found ≡ with_found (spec.faults_before l) before
        → is_kept led.entry.booker.faults ≡ is_kept before → (m : prelude.List ℕ → Method)
        → (past : prelude.List (places.Placed directives.Directive)) (st : Stand)
        → IsLed S.Bookings m past st led.entry.booker led.entry.bookings
        → IfOk result (IsFinished S.Bookings before l st) }
    ensures full { result ≢ prelude.Err (Refusal.Refused BookCause.TooManyPostings) }
{
    let Led { booker, bookings } = led;
    let (pads, faults) = finish_found(found, booker)?;
    Ok(Booked {
        bookings,
        pads,
        faults,
    })
}

/// The booking methods of a ledger's accounts. The faults are added that are found before the first
/// directive is taken.
fn begin<'a>(
    alloc: Global,
    loaded: &Loaded<'a>,
    faults: &mut FaultLog,
) -> Result<Methods<'a>, AllocError>
    ensures methods { IfOk result (λ methods. (a : prelude.List ℕ)
        → spec.method_in_ledger loaded.now a ≡ method_in methods a) }
    ensures faults { OnOk result (faults.new ≡ with_found (spec.faults_before loaded.now) faults.old) }
{
    let directives = loaded.directives();
    let methods = methods_of(alloc, otherwise(loaded.methods()), directives)?;
    note_before(alloc, loaded, faults)?;
    Ok(methods)
}

/// What the directives of a loaded ledger are booked as. What is booked is handed over as soon as
/// it is. Faults are added to a log; they change nothing of what is booked, so where nobody asks for
/// them less is looked for.
pub fn book_directives<'a, S: Bookings<'a> + Drop>(
    alloc: Global,
    loaded: Loaded<'a>,
    faults: FaultLog,
    bookings: S,
) -> Result<Booked<'a, S>, Refusal<BookCause>>
    requires { S.has_taken bookings [] }
    ensures booked { IfOk result (IsBooked S.Bookings faults loaded.entry) }
    ensures small { IfOk result (λ booked. AllByRecursion IsSmallNoted booked.pads) }
    ensures full { result ≡ prelude.Err (Refusal.Refused BookCause.TooManyPostings) → HasTooMany loaded.entry }
{
    let mut faults = faults;
    let methods = begin(alloc, &loaded, &mut faults)?;
    match take_all(alloc, methods, loaded.into_directives(), &faults, bookings) {
        Ok(led) => finish(faults, led),
        Err(fault) => Err(fault),
    }
}
