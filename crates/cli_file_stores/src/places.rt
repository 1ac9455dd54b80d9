//! Where the bytes go that are stored under a name.

use std::alloc::Global;
use std::fs::Metadata;
use std::io::{Error, ErrorKind};
use std::os::unix::fs::MetadataExt;
use std::rt::Files;
use std::{fs, io};

/// The name of standard output among the files of the machine.
const STANDARD_OUTPUT: &str = "/dev/stdout";

/// The most symbolic links that are followed from a name to its file, as many as Linux follows.
const MAX_LINKS: u32 = 40;

/// Where the bytes go that are stored under a name.
#[derive(Drop)]
pub(crate) enum Place {
    /// To standard output, which is the file of this name.
    Output,
    /// Into the file of this name as it stands: a device or a pipe, or a file that no path leads to.
    Through,
    /// Under this path, in the place of the regular file that was found there, if there is one.
    Under(String, Option<Metadata>),
}

/// Returns whether `a` and `b` are of one file. They aren't where the system numbers no files.
pub(crate) fn are_of_one_file(a: &Metadata, b: &Metadata) -> bool {
    a.ino() != 0 && a.ino() == b.ino() && a.dev() == b.dev()
}

/// Returns the folder of `path` with the slash behind it, and the name in it.
pub(crate) fn folder_and_name(path: &str) -> (&str, &str) {
    match path.rsplit_once('/') {
        Some((_, name)) => path
            .split_at_checked(path.len() - name.len())
            .unwrap_or(("", path)),
        None => ("", path),
    }
}

/// Returns the path that the symbolic link `path` names. A relative one starts at the folder of the link.
fn link_target<R: Files>(rt: &R, alloc: Global, path: &str) -> io::Result<String> {
    let named = rt.read_link(alloc, path)?.into_string();
    if named.starts_with('/') {
        return Ok(named);
    }
    let (folder, _) = folder_and_name(path);
    Ok(format!(in alloc; "{folder}{named}")?)
}

/// Returns the path behind all symbolic links of `name`. There need not be a file.
///
/// # Errors
///
/// Returns `FilesystemLoop` behind 40 links, `OutOfMemory` if memory was refused, and any other error as the system
/// gives it.
fn behind_links<R: Files>(rt: &R, alloc: Global, name: &str) -> io::Result<String> {
    let mut path = String::from_str(alloc, name)?;
    for _ in 0..MAX_LINKS {
        match fs::symlink_metadata(rt, path.as_str()) {
            Ok(metadata) if metadata.is_symlink() => {}
            _ => return Ok(path),
        }
        path = link_target(rt, alloc, path.as_str())?;
    }
    Err(Error::from(ErrorKind::FilesystemLoop))
}

/// Returns whether `found`, the metadata of the file that a name leads to, are those of standard output.
fn is_output<R: Files>(rt: &R, found: &Metadata) -> bool {
    match fs::metadata(rt, STANDARD_OUTPUT) {
        Ok(output) => are_of_one_file(&output, found),
        Err(_) => false,
    }
}

/// Returns where a regular file goes that takes the place of the one that `name` leads to, whose metadata are `found`.
fn place_of_regular<R: Files>(
    rt: &R,
    alloc: Global,
    name: &str,
    found: Metadata,
) -> io::Result<Place> {
    let path = behind_links(rt, alloc, name)?;
    if path.as_str() == name {
        return Ok(Place::Under(path, Some(found)));
    }
    // The text of a link such as `/dev/fd/3` need not be the path of the file that the link leads to.
    match fs::metadata(rt, path.as_str()) {
        Ok(there) if are_of_one_file(&there, &found) => Ok(Place::Under(path, Some(found))),
        _ => Ok(Place::Through),
    }
}

/// Returns where the bytes go that are stored under `name`.
///
/// # Errors
///
/// Returns `IsADirectory` if the name leads to a folder, `PermissionDenied` if it leads to a read-only regular file,
/// `OutOfMemory` if memory was refused, and `FilesystemLoop` if it leads through more than 40 links. Returns any other
/// error as the system gives it.
pub(crate) fn place_of<R: Files>(rt: &R, alloc: Global, name: &str) -> io::Result<Place> {
    let found = match fs::metadata(rt, name) {
        Ok(found) => found,
        Err(error) if error.kind() == ErrorKind::NotFound => {
            return Ok(Place::Under(behind_links(rt, alloc, name)?, None));
        }
        Err(error) => return Err(error),
    };
    if found.is_dir() {
        return Err(Error::from(ErrorKind::IsADirectory));
    }
    if is_output(rt, &found) {
        return Ok(Place::Output);
    }
    if !found.is_file() {
        return Ok(Place::Through);
    }
    if found.permissions().readonly() {
        return Err(Error::from(ErrorKind::PermissionDenied));
    }
    place_of_regular(rt, alloc, name, found)
}
