//! What has come to the places of a section.
ghost use Rattle.std.specs.Prelude.{◌≡◌, ◌<◌, ◌∷◌, replicate, length, slice_set, slice_index_or};
ghost use Rattle.std.specs.Prelude.{IfOk};
ghost use Rattle.plain_machine.specs.SectionRun as runs;
ghost use Rattle.verify_programs.specs.Pass as spec;
ghost use Rattle.verify_programs.specs.declared.waiting.Waiting.TheVariants.{Nothing, Shaped};

use crate::StateShape;
use std::alloc::{AllocError, Global};

/// What has come to a place along the paths that were followed so far: nothing, a state shape, or
/// some that have none above them all.
#[derive(Drop)]
pub enum Waiting {
    Nothing,
    Shaped(StateShape),
    Clash,
}

/// Before the first instruction: an empty stack and unset slots at the first place, and nothing at
/// so many others.
pub fn begun(alloc: Global, others: usize) -> Result<Vec<Waiting>, AllocError>
    ensures { IfOk result (λ w. w.items
        ≡ Shaped runs.start ∷ replicate others Nothing) }
{
    let mut waiting = Vec::new(alloc);
    waiting.push(Waiting::Shaped(StateShape::new(alloc)?))?;
    for _ in 0..others {
        waiting.push(Waiting::Nothing)?;
    }
    Ok(waiting)
}

/// What has come with what comes more.
fn met(waiting: Waiting, state: StateShape) -> Waiting
    ensures { result ≡ spec.met waiting state }
{
    match waiting {
        Waiting::Nothing => Waiting::Shaped(state),
        Waiting::Shaped(mut known) => {
            if known.join(&state) {
                Waiting::Shaped(known)
            } else {
                Waiting::Clash
            }
        }
        Waiting::Clash => Waiting::Clash,
    }
}

/// Takes what has come to a place.
pub fn taken(waiting: &mut Vec<Waiting>, place: usize) -> Waiting
    requires { place < length waiting.old.items }
    ensures is { result ≡ slice_index_or waiting.old.items place Nothing }
    ensures left { waiting.new.items ≡ slice_set waiting.old.items place Nothing }
{
    std::mem::replace(&mut waiting[place], Waiting::Nothing)
}

/// Brings a state shape to a place.
pub fn bring(waiting: &mut Vec<Waiting>, place: usize, state: StateShape)
    requires { place < length waiting.old.items }
    ensures { waiting.new.items ≡ spec.bring waiting.old.items place state }
{
    let known = taken(waiting, place);
    waiting[place] = met(known, state);
}
