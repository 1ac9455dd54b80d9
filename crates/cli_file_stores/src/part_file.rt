//! The file beside the one that is to be stored. It takes the bytes, and is then renamed.

use crate::machine::{Locking, Machine};
use crate::places::{are_of_one_file, folder_and_name};
use std::alloc::{AllocError, Global};
use std::fs::{Metadata, OpenFile, OpenOptions, Permissions};
use std::io::{Error, ErrorKind, Write};
use std::os::unix::fs::{MetadataExt, OpenOptionsExt, PermissionsExt, lchown};
use std::rt::Files;
use std::{fs, io};

/// How many names a file beside another may have, so that so many runs can store one name at once.
const NAMES: u32 = 9;

/// The most bytes of a file's name that file systems take.
const MAX_NAME: usize = 255;

/// How often one name is tried, if another run takes it over each time.
const TRIES: u32 = 3;

/// The permissions that are asked for a new file.
const NEW_FILE: u32 = 0o666;

/// The bits of a mode that are kept: who may read, write and run the file.
const KEPT: u32 = 0o777;

/// The bits of a mode for the group of the file.
const OF_GROUP: u32 = 0o070;

/// A file beside the one that is to be stored. It is open, and its advisory lock is held if the system has such locks.
#[derive(Drop)]
pub(crate) struct PartFile<F> {
    /// The open file.
    file: F,
    /// Its path.
    path: String,
    /// Whether its lock is held, so that a later run can tell whether this one has ended.
    pub(crate) is_locked: bool,
}

/// Returns the path of the file beside the one of `path` that has this `number`, from 1 on. The name is cut where it
/// would be too long.
fn part_path(alloc: Global, path: &str, number: u32) -> Result<String, AllocError> {
    let suffix = match number {
        1 => format!(in alloc; ".countygroups.part")?,
        _ => format!(in alloc; ".countygroups{number}.part")?,
    };
    let (folder, name) = folder_and_name(path);
    let room = MAX_NAME.saturating_sub(suffix.len());
    let (name, _) = name
        .split_at_checked(name.floor_char_boundary(room))
        .unwrap_or((name, ""));
    format!(in alloc; "{folder}{name}{suffix}")
}

/// Returns whether `path` leads to `file`, and isn't a link.
fn is_under<R: Files>(rt: &R, file: &R::File, path: &str) -> bool {
    match (file.metadata(), fs::symlink_metadata(rt, path)) {
        (Ok(open), Ok(there)) => there.is_file() && are_of_one_file(&open, &there),
        _ => false,
    }
}

/// Takes the lock of `file`, which was made under `path`. Returns whether it is held, or `None` if another run has taken
/// the file over meanwhile. Where the system has no locks it isn't held, and no run takes another's file.
fn take_lock<R: Machine>(rt: &R, file: &R::File, path: &str) -> Option<bool> {
    match rt.lock(file) {
        Locking::Held if is_under(rt, file, path) => Some(true),
        Locking::Held | Locking::InUse => None,
        Locking::Unknown => Some(false),
    }
}

/// Removes the file of `path`, which a run that was killed has left. Returns whether it was removed. It stays if its
/// lock is held, as by a run that goes on, or if it is no regular file.
fn remove_left<R: Machine>(rt: &R, path: &str) -> bool {
    match fs::symlink_metadata(rt, path) {
        Ok(there) if there.is_file() => {}
        _ => return false,
    }
    let Ok(file) = fs::open(rt, path) else {
        return false;
    };
    let is_left = rt.lock(&file) == Locking::Held && is_under(rt, &file, path);
    is_left && fs::remove_file(rt, path).is_ok()
}

/// Creates a file under `path` with the permissions `mode`, takes its lock, and returns the file and whether the lock is
/// held. A file that a killed run has left there is removed before. Returns `None` if the name is taken.
fn create<R: Machine>(rt: &R, path: &str, mode: u32) -> io::Result<Option<(R::File, bool)>> {
    for _ in 0..TRIES {
        let mut options = OpenOptions::new();
        options.read(true).write(true).create_new(true).mode(mode);
        match options.open(rt, path) {
            Ok(file) => {
                if let Some(is_locked) = take_lock(rt, &file, path) {
                    return Ok(Some((file, is_locked)));
                }
            }
            Err(error) => {
                if error.kind() != ErrorKind::AlreadyExists {
                    return Err(error);
                }
                if !remove_left(rt, path) {
                    return Ok(None);
                }
            }
        }
    }
    Ok(None)
}

/// Opens a new file beside the one of `path`, in the same folder. `found` are the metadata of the file that it is to
/// replace, if there is one, and nobody may open the new file who may not open that one.
///
/// # Errors
///
/// Returns `AlreadyExists` if other runs have all nine names, `OutOfMemory` if memory was refused, and any other error
/// as the system gives it.
pub(crate) fn open_beside<R: Machine>(
    rt: &R,
    alloc: Global,
    path: &str,
    found: Option<&Metadata>,
) -> io::Result<PartFile<R::File>> {
    let mode = match found {
        Some(found) => found.mode() & KEPT,
        None => NEW_FILE,
    };
    for number in 1..=NAMES {
        let part = part_path(alloc, path, number)?;
        if let Some((file, is_locked)) = create(rt, part.as_str(), mode)? {
            return Ok(PartFile {
                file,
                path: part,
                is_locked,
            });
        }
    }
    Err(Error::from(ErrorKind::AlreadyExists))
}

/// Gives `part` the owner, the group and the permissions in `found`, as far as the system lets it. What the group may do
/// is left out if the file can't have this group.
fn keep_owner_and_mode<R: Machine>(
    rt: &R,
    part: &PartFile<R::File>,
    found: &Metadata,
) -> io::Result<()> {
    let made = part.file.metadata()?;
    let mut mode = found.mode() & KEPT;
    if made.uid() != found.uid() || made.gid() != found.gid() {
        let (path, group) = (part.path.as_str(), Some(found.gid()));
        let is_given = lchown(rt, path, Some(found.uid()), group).is_ok()
            || lchown(rt, path, None, group).is_ok();
        if !is_given {
            mode &= !OF_GROUP;
        }
    }
    if made.mode() & KEPT == mode {
        return Ok(());
    }
    part.file.set_permissions(Permissions::from_mode(mode))
}

/// Asks the device to keep the names in the folder of `path`. The file has its name already, so an error changes
/// nothing and isn't told.
fn sync_folder<R: Files>(rt: &R, path: &str) {
    let folder = match folder_and_name(path) {
        ("", _) => ".",
        (folder, _) => folder,
    };
    if let Ok(folder) = fs::open(rt, folder) {
        let _ = folder.sync_all();
    }
}

/// Writes all `bytes` to `part`, up to the device, and renames it to `path`. It has the owner and the permissions in
/// `found` before the first byte is written.
fn fill_and_rename<R: Machine>(
    rt: &R,
    part: &mut PartFile<R::File>,
    path: &str,
    found: Option<&Metadata>,
    bytes: &[u8],
) -> io::Result<()> {
    if let Some(found) = found {
        keep_owner_and_mode(rt, part, found)?;
    }
    part.file.write_all(bytes)?;
    part.file.sync_all()?;
    fs::rename(rt, part.path.as_str(), path)
}

/// Puts `bytes` under `path` by way of `part`, whole or not at all. `found` are the metadata of the file that was there.
///
/// # Errors
///
/// Returns the error that the system gives. The file of `path` is then as it was, and `part` is removed if that can be
/// done.
pub(crate) fn put_by<R: Machine>(
    rt: &R,
    mut part: PartFile<R::File>,
    path: &str,
    found: Option<&Metadata>,
    bytes: &[u8],
) -> io::Result<()> {
    match fill_and_rename(rt, &mut part, path, found, bytes) {
        Ok(()) => {
            sync_folder(rt, path);
            Ok(())
        }
        Err(error) => {
            remove(rt, part);
            Err(error)
        }
    }
}

/// Removes `part`, which isn't needed, if that can be done, and closes it.
pub(crate) fn remove<R: Machine>(rt: &R, part: PartFile<R::File>) {
    let _ = fs::remove_file(rt, part.path.as_str());
}
