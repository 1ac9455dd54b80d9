//! Bytes put under a name: whole or not at all in the place of a regular file, and through a device or a pipe.

use crate::machine::Machine;
use crate::part_file::{PartFile, open_beside, put_by, remove};
use crate::places::{Place, place_of};
use std::alloc::Global;
use std::fs::{Metadata, OpenOptions};
use std::io;
use std::io::Write;

/// A file that stands ready beside the one that is to be stored under a name.
#[derive(Drop)]
pub(crate) struct Ready<F> {
    /// The name.
    name: String,
    /// The path behind the links of the name.
    path: String,
    /// The file beside that path.
    part: PartFile<F>,
}

/// Opens the file beside the one that is to be stored under `name`. Returns `None` if the name leads to a device, a pipe
/// or standard output, which are opened when they are written. Returns `None` too if the system has no advisory locks:
/// then the file is removed again, since no later run could tell that this one was killed.
///
/// # Errors
///
/// Returns the errors that `replace_file` returns before it has written anything.
pub(crate) fn open_ready<R: Machine>(
    rt: &R,
    alloc: Global,
    name: &str,
) -> io::Result<Option<Ready<R::File>>> {
    match place_of(rt, alloc, name)? {
        Place::Under(path, found) => {
            let name = String::from_str(alloc, name)?;
            let part = open_beside(rt, alloc, path.as_str(), found.as_ref())?;
            if part.is_locked {
                return Ok(Some(Ready { name, path, part }));
            }
            remove(rt, part);
            Ok(None)
        }
        _ => Ok(None),
    }
}

/// Removes the first of `ready` that was opened for `name`, and returns it if there is one.
fn take_ready<F: Drop>(ready: &mut Vec<Ready<F>>, name: &str) -> Option<Ready<F>> {
    let place = ready.iter().position(|one| one.name.as_str() == name)?;
    Some(ready.remove(place))
}

/// Removes all files of `ready` that no store took.
pub(crate) fn remove_ready<R: Machine>(rt: &R, ready: &mut Vec<Ready<R::File>>) {
    for _ in 0..ready.len() {
        if let Some(one) = ready.pop() {
            remove(rt, one.part);
        }
    }
}

/// Returns the file beside `path`: the one of `ready` if it was opened for that path, and otherwise a new one.
fn part_beside<R: Machine>(
    rt: &R,
    alloc: Global,
    ready: Option<Ready<R::File>>,
    (path, found): (&str, Option<&Metadata>),
) -> io::Result<PartFile<R::File>> {
    if let Some(ready) = ready {
        if ready.path.as_str() == path {
            return Ok(ready.part);
        }
        remove(rt, ready.part);
    }
    open_beside(rt, alloc, path, found)
}

/// Writes all `bytes` into the file of `name`, which is there. A pipe or a device takes them as they come.
fn write_through<R: Machine>(rt: &R, name: &str, bytes: &[u8]) -> io::Result<()> {
    let mut options = OpenOptions::new();
    options.write(true).truncate(true);
    options.open(rt, name)?.write_all(bytes)
}

/// Puts these `bytes` under `name`. In the place of a regular file they are put whole or not at all: they go to a file
/// beside it, one of `ready` if one was opened for this name, which is then renamed. Links are followed. A device, a
/// pipe and standard output are written as they stand.
///
/// # Errors
///
/// Returns `OutOfMemory` if memory was refused, `IsADirectory` if the name leads to a folder, and `PermissionDenied` if
/// it leads to a read-only regular file. Returns `AlreadyExists` if other runs have all names of files beside it, and
/// any other error as the system gives it. A regular file is then as it was. A device or a pipe may have taken a
/// beginning of the bytes.
pub(crate) fn replace_file<R: Machine>(
    rt: &R,
    alloc: Global,
    ready: &mut Vec<Ready<R::File>>,
    name: &str,
    bytes: &[u8],
) -> io::Result<()> {
    match place_of(rt, alloc, name)? {
        Place::Output => rt.put_output(bytes),
        Place::Through => write_through(rt, name, bytes),
        Place::Under(path, found) => {
            let taken = take_ready(ready, name);
            let part = part_beside(rt, alloc, taken, (path.as_str(), found.as_ref()))?;
            put_by(rt, part, path.as_str(), found.as_ref(), bytes)
        }
    }
}
