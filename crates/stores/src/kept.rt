//! Files that are kept whole or not at all.

use std::fs::{self, File, OpenFile, OpenOptions, Permissions};
use std::io::{self, ErrorKind, Write};
use std::rt::Files;

/// How many names are tried for a new file, where runs that were ended left theirs.
const MOST_NAMES: u32 = 1_000;

/// Keeps bytes under a name. A file that stands there, or nothing, is replaced at once by a new file
/// that has all of them; where anything fails there is no new file, and what stood there is as it
/// was. What is no file by itself, as a device, a pipe or a link, is written to.
///
/// The permissions of a file that is replaced stay, and where it may not be written to it isn't
/// replaced.
pub(crate) fn keep<R: Files + AllocGlobal>(rt: &R, name: &str, bytes: &[u8]) -> io::Result<()> {
    match fs::symlink_metadata(rt, name) {
        Ok(metadata) if metadata.is_file() => {
            let permissions = permissions_of_writable(rt, name)?;
            replace(rt, name, bytes, Some(permissions))
        }
        Ok(_) => fs::write(rt, name, bytes),
        Err(error) if error.kind() == ErrorKind::NotFound => replace(rt, name, bytes, None),
        Err(error) => Err(error),
    }
}

/// The permissions of a file, if it may be written to.
fn permissions_of_writable<R: Files>(rt: &R, name: &str) -> io::Result<Permissions> {
    let file = OpenOptions::new().write(true).open(rt, name)?;
    Ok(file.metadata()?.permissions())
}

/// Gives a name to a new file with these bytes, or takes the new file away.
fn replace<R: Files + AllocGlobal>(
    rt: &R,
    name: &str,
    bytes: &[u8],
    permissions: Option<Permissions>,
) -> io::Result<()> {
    let (file, new_name) = create_beside(rt, name)?;
    let replaced = fill(file, bytes, permissions).and_then(|()| fs::rename(
        rt,
        new_name.as_str(),
        name,
    ));
    if replaced.is_err() {
        // What is told is why it failed first.
        let _ = fs::remove_file(rt, new_name.as_str());
    }
    replaced
}

/// A new file in the folder of a name. It has a short name of its own, since that of the other may
/// be as long as names can be.
fn create_beside<R: Files + AllocGlobal>(rt: &R, name: &str) -> io::Result<(R::File, String)> {
    for number in 0..MOST_NAMES {
        let new_name = match name.rsplit_once('/') {
            Some((folder, _)) => format!(in rt.alloc(); "{folder}/.bq-{number}.new")?,
            None => format!(in rt.alloc(); ".bq-{number}.new")?,
        };
        match File::create_new(rt, new_name.as_str()) {
            Ok(file) => return Ok((file, new_name)),
            Err(error) if error.kind() == ErrorKind::AlreadyExists => {}
            Err(error) => return Err(error),
        }
    }
    Err(io::Error::from(ErrorKind::AlreadyExists))
}

/// Writes all bytes to a new file, and sees that the device has them.
fn fill<F: Write + OpenFile + Drop>(
    mut file: F,
    bytes: &[u8],
    permissions: Option<Permissions>,
) -> io::Result<()> {
    if let Some(permissions) = permissions {
        file.set_permissions(permissions)?;
    }
    file.write_all(bytes)?;
    file.sync_all()
}
