//! The files below a folder.

use crate::glob::Glob;
use crate::names::{UNNAMED, file_path};
use std::alloc::{AllocError, Global};
use std::io::{Error, ErrorKind, Read};
use std::rt::Files;

// How many bytes of names are read at once: a name has at most 255.
const PIECE: usize = 8192;

// How many times a read that is interrupted is made in all.
const TRIES: u32 = 1000;

/// What is met below a folder: the path of a file that is to be read, which begins with `UNNAMED` where it isn't UTF-8; or that of a
/// folder, or of a file in it, that can't be examined, and why.
#[derive(Drop)]
pub struct Found {
    pub path: String,
    pub failed: Option<Error>,
}

/// The files below a folder that are still to come, in the order of the bytes of their paths.
#[derive(Drop)]
pub struct Folder {
    alloc: Global,
    // Paths, the next one last. One that ends with `/` is a folder's, whose files come in its place.
    to_come: Vec<String>,
    // What the paths begin with.
    front: usize,
}

/// Which files of a folder are read.
#[derive(Clone, Copy)]
pub struct Choice<'g, 'a> {
    /// Those that match one of these; where there are none, those that end with `.yaml` or `.yml`.
    pub included: &'g [Glob<'a>],
    /// None that matches one of these, nor what is below a folder that does.
    pub excluded: &'g [Glob<'a>],
}

impl Choice<'_, '_> {
    // Whether a file of that path below the folder is read.
    fn takes(&self, path: &str) -> bool {
        let is_included = if self.included.is_empty() {
            path.ends_with(".yaml") || path.ends_with(".yml")
        } else {
            is_in(self.included, path)
        };
        is_included && !is_in(self.excluded, path)
    }
}

fn is_in(globs: &[Glob<'_>], path: &str) -> bool {
    globs.iter().any(|glob| glob.matches(path))
}

// What an entry of a folder is.
#[derive(Clone, Copy)]
enum Kind {
    Folder,
    File,
    // It is neither, or isn't read.
    Other,
}

// What is at that path: links to folders aren't followed. Where it can't be examined, as where a link leads nowhere, reading it
// reports why.
fn kind_of<H: Files>(rt: &H, path: &str) -> Kind {
    match rt.symlink_metadata(path) {
        Ok(found) if found.is_dir() => Kind::Folder,
        Ok(found) if found.is_file() => Kind::File,
        _ => match rt.metadata(path) {
            Ok(found) if !found.is_file() => Kind::Other,
            _ => Kind::File,
        },
    }
}

/// One read, made again where it is interrupted.
pub fn read_again<R: Read>(reader: &mut R, piece: &mut [u8]) -> Result<usize, Error> {
    for _ in 1..TRIES {
        match reader.read(piece) {
            Err(error) if error.kind() == ErrorKind::Interrupted => {}
            read => return read,
        }
    }
    reader.read(piece)
}

// The paths of all entries of a folder.
fn paths_in<H: Files>(rt: &H, alloc: Global, folder: &str) -> Result<Vec<String>, Error> {
    let mut paths = Vec::new(alloc);
    let mut dir = rt.open_dir(folder)?;
    let mut piece = [0u8; PIECE];
    for _ in 0..u64::MAX {
        let count = read_again(&mut dir, &mut piece)?;
        if count == 0 {
            break;
        }
        for name in piece.get(..count).unwrap_or(b"").split(|byte| *byte == 0) {
            if !matches!(name, b"" | b"." | b".." | b".git") {
                paths.push(file_path(alloc, folder, name)?)?;
            }
        }
    }
    Ok(paths)
}

impl Folder {
    /// The files below the folder of that name.
    pub fn new(alloc: Global, name: &str) -> Result<Folder, AllocError> {
        let mut path = String::from_str(alloc, name)?;
        if !name.ends_with('/') {
            path.push('/')?;
        }
        let front = path.len();
        let mut to_come = Vec::new(alloc);
        to_come.push(path)?;
        Ok(Folder {
            alloc,
            to_come,
            front,
        })
    }

    // Whether what is at that path is read, or the files below it are; a folder's path then ends with `/`. A name that isn't UTF-8
    // may be a folder's, so it counts as a file that is read.
    fn takes<H: Files>(
        &self,
        rt: &H,
        choice: &Choice<'_, '_>,
        path: &mut String,
    ) -> Result<bool, AllocError> {
        let below = path.get(self.front..).unwrap_or("");
        if path.starts_with(UNNAMED) {
            return Ok(!is_in(choice.excluded, below));
        }
        match kind_of(rt, path.as_str()) {
            Kind::Folder if is_in(choice.excluded, below) => Ok(false),
            Kind::Folder => path.push('/').map(|()| true),
            Kind::File => Ok(choice.takes(below)),
            Kind::Other => Ok(false),
        }
    }

    // Puts what is read of a folder before what is to come.
    fn open<H: Files>(
        &mut self,
        rt: &H,
        choice: &Choice<'_, '_>,
        folder: &str,
    ) -> Result<(), Error> {
        let mut chosen = Vec::new(self.alloc);
        for mut path in paths_in(rt, self.alloc, folder)? {
            if self.takes(rt, choice, &mut path)? {
                chosen.push(path)?;
            }
        }
        chosen.sort()?;
        chosen.reverse();
        self.to_come.append(&mut chosen)?;
        Ok(())
    }

    /// The next file; nothing at the end.
    pub fn next<H: Files>(&mut self, rt: &H, choice: &Choice<'_, '_>) -> Option<Found> {
        for _ in 0..u64::MAX {
            let path = self.to_come.pop()?;
            if !path.ends_with('/') {
                return Some(Found { path, failed: None });
            }
            let failed = self.open(rt, choice, path.as_str()).err();
            if failed.is_some() {
                return Some(Found { path, failed });
            }
        }
        None
    }
}
