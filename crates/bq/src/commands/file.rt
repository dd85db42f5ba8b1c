//! The files that commands ask for.
ghost use Rattle.bq.specs.Files.{ReadsFile};

use bean_load::LoadCause;
use limits::LARGEST_TEXT;
use refusals::Refusal;
use stores::{Source, SourceFault};

/// The bytes of the file of that name.
pub fn file_bytes<S: Source>(store: &mut S, name: &str) -> Result<Vec<u8>, Refusal<LoadCause>>
    ensures { ReadsFile S.Source store.old store.new name.now (λ bytes. bytes.items) result }
{
    let bytes = match store.text(name) {
        Ok(bytes) => bytes,
        Err(SourceFault::Failed) => return Err(Refusal::Refused(LoadCause::Unreadable)),
        Err(SourceFault::OutOfMemory) => return Err(Refusal::OutOfMemory),
    };
    if bytes.len() > LARGEST_TEXT {
        return Err(Refusal::Refused(LoadCause::TooLarge));
    }
    Ok(bytes)
}
