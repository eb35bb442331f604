//! Files that are written in place.

use std::alloc::Global;
use std::fs::{Metadata, OpenFile, OpenOptions};
use std::io::{Error, ErrorKind, Write};
use std::os::unix::fs::{MetadataExt, OpenOptionsExt};
use std::rt::Files;

// How many names are tried for the new file.
const MOST_NAMES: u32 = 100;

/// Why a file wasn't replaced. It is as it was.
#[derive(Debug, Drop)]
pub enum Unreplaced {
    Failed(Error),
    /// It has other names, which would go on naming the old text.
    HasLinks(u64),
}

impl From<Error> for Unreplaced {
    fn from(error: Error) -> Unreplaced {
        Unreplaced::Failed(error)
    }
}

// What is known of a file that may be written.
fn known<H: Files>(rt: &H, path: &str) -> Result<Metadata, Unreplaced> {
    let file = OpenOptions::new().read(true).write(true).open(rt, path)?;
    let known = file.metadata()?;
    match known.nlink() {
        0 | 1 => Ok(known),
        links => Err(Unreplaced::HasLinks(links)),
    }
}

// A new file beside the one of that path, and its path, put into `beside`.
fn begin<H: Files>(rt: &H, path: &str, beside: &mut String) -> Result<H::File, Error> {
    let mut options = OpenOptions::new();
    options.write(true).create_new(true).mode(0o600);
    for number in 0..MOST_NAMES {
        beside.clear();
        write!(beside, "{path}.{number}.new")?;
        match options.open(rt, beside.as_str()) {
            Err(error) if error.kind() == ErrorKind::AlreadyExists => {}
            opened => return opened,
        }
    }
    Err(Error::from(ErrorKind::AlreadyExists))
}

// Writes the text, and has it reach the disk; the owner is kept where that is allowed.
fn fill<H: Files>(
    rt: &H,
    file: &mut H::File,
    path: &str,
    known: &Metadata,
    text: &[u8],
) -> Result<(), Error> {
    file.write_all(text)?;
    let _ = rt.chown(path, Some(known.uid()), Some(known.gid()));
    file.set_permissions(known.permissions())?;
    file.sync_all()
}

/// Puts a file of that text in the place of the one that the path names, by a new one beside it, which has the same mode: the path
/// names the old text, whole, until it names the new one, whole. Where it names a link the file after that is replaced.
pub fn replace<H: Files>(rt: &H, alloc: Global, path: &str, text: &[u8]) -> Result<(), Unreplaced> {
    let real = rt.canonicalize(alloc, path)?;
    let real = real.as_path().as_str();
    let known = known(rt, real)?;
    let mut beside = String::new(alloc);
    let mut file = begin(rt, real, &mut beside)?;
    let written = fill(rt, &mut file, beside.as_str(), &known, text).and_then(|()| rt.rename(
        beside.as_str(),
        real,
    ));
    if let Err(error) = written {
        let _ = rt.remove_file(beside.as_str());
        return Err(Unreplaced::Failed(error));
    }
    Ok(())
}
