//! Files and folders of the machine that are looked at beside a run.

use std::fs;
use std::fs::Metadata;
use std::io::ErrorKind;
use std::os::unix::fs::MetadataExt;
use std::rt::Files;

/// Returns whether `path` leads to a plain file. A pipe isn't one, and is never read twice.
pub(crate) fn is_plain(rt: &impl Files, path: &str) -> bool {
    match fs::metadata(rt, path) {
        Ok(metadata) => metadata.is_file(),
        Err(_) => false,
    }
}

/// Returns whether `path` leads to what is no regular file and no folder, as a device, a pipe or a terminal.
fn is_stream(rt: &impl Files, path: &str) -> bool {
    match fs::metadata(rt, path) {
        Ok(metadata) => !metadata.is_file() && !metadata.is_dir(),
        Err(_) => false,
    }
}

/// Returns the folder of `path` and the name in it.
fn folder_and_name(path: &str) -> (&str, &str) {
    match path.rsplit_once('/') {
        Some(("", name)) => ("/", name),
        Some((folder, name)) => (folder, name),
        None => (".", path),
    }
}

/// Returns whether `a` and `b` are of one file. They aren't where the system numbers no files.
fn are_of_one_file(a: &Metadata, b: &Metadata) -> bool {
    a.ino() != 0 && a.ino() == b.ino() && a.dev() == b.dev()
}

/// Returns whether the folders of `a` and `b` are one, and the names in it too.
fn have_one_name(rt: &impl Files, a: &str, b: &str) -> bool {
    let ((first, name), (second, other)) = (folder_and_name(a), folder_and_name(b));
    if name != other {
        return false;
    }
    match (fs::metadata(rt, first), fs::metadata(rt, second)) {
        (Ok(first), Ok(second)) => are_of_one_file(&first, &second),
        _ => false,
    }
}

/// Returns whether `a` and `b` lead to one file, or would once it is there. The paths may be written in two ways, as
/// `c` and `./c`, or lead to the file through links.
pub(crate) fn is_one_file(rt: &impl Files, a: &str, b: &str) -> bool {
    if a == b {
        return true;
    }
    match (fs::metadata(rt, a), fs::metadata(rt, b)) {
        (Ok(a), Ok(b)) => are_of_one_file(&a, &b),
        (Err(_), Err(_)) => have_one_name(rt, a, b),
        _ => false,
    }
}

/// Returns whether files that are stored under `a` and `b` take one another's place. A device or a pipe takes both.
pub(crate) fn take_one_place(rt: &impl Files, a: &str, b: &str) -> bool {
    is_one_file(rt, a, b) && !is_stream(rt, a)
}

/// Returns why no file can be put into the folder of `path`, if the system says so.
fn folder_reason(rt: &impl Files, path: &str) -> Option<&'static str> {
    let (folder, _) = folder_and_name(path);
    match fs::metadata(rt, folder) {
        Ok(metadata) if !metadata.is_dir() => Some("a part of the path is no folder"),
        Ok(metadata) if metadata.permissions().readonly() => Some("its folder may not be written"),
        Ok(_) => None,
        Err(error) if error.kind() == ErrorKind::NotFound => Some("its folder is missing"),
        Err(_) => Some("its folder can't be reached"),
    }
}

/// Returns why no file can be stored under `path`, if the system says so.
pub(crate) fn closed_reason(rt: &impl Files, path: &str) -> Option<&'static str> {
    match fs::metadata(rt, path) {
        Ok(metadata) if metadata.is_dir() => Some("it is a folder"),
        Ok(metadata) if metadata.is_file() && metadata.permissions().readonly() => {
            Some("it may not be written")
        }
        _ => folder_reason(rt, path),
    }
}

/// Returns plain words for `reason`, an error of the system.
pub(crate) fn words_of_reason(reason: ErrorKind) -> &'static str {
    match reason {
        ErrorKind::NotFound => "no such file or folder",
        ErrorKind::PermissionDenied => "permission denied",
        ErrorKind::IsADirectory => "it is a folder",
        ErrorKind::NotADirectory => "a part of the path is no folder",
        ErrorKind::AlreadyExists => "all names of files beside it are taken",
        ErrorKind::StorageFull => "no space is left",
        ErrorKind::QuotaExceeded => "the quota is used up",
        ErrorKind::ReadOnlyFilesystem => "the file system is read-only",
        ErrorKind::FileTooLarge => "it is too large for the file system",
        ErrorKind::FilesystemLoop => "its links lead in a circle",
        ErrorKind::InvalidFilename => "the name is too long or not allowed",
        ErrorKind::ResourceBusy => "it is in use",
        ErrorKind::Interrupted => "the call was interrupted",
        _ => "the system reports an error",
    }
}
