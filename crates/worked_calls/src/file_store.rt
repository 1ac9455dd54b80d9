//! The files of the machine, and files in memory.

use anyhow::{Error, Result};
use cli_file_stores::{DiskFileStore, FileStore, FileStoreFault, MemoryFileStore};
use std::fs;

/// Prints what the file store gives for a `name`. For a fault it also prints how often the device has failed. Returns
/// an error if memory was refused.
fn show_load<H: FileStore>(rt: &HostRuntime, file_store: &mut H, name: &str) -> Result<()> {
    match file_store.load(rt.alloc(), name) {
        Ok(bytes) => println!(rt; "{name}: {:?}", str::from_utf8(&bytes)?)?,
        Err(FileStoreFault::Memory) => return Err(Error::from(FileStoreFault::Memory)),
        Err(fault) => println!(rt; "{name}: {fault}, failures {}", file_store.failures())?,
    }
    Ok(())
}

/// Prints whether a `text` is stored under a `name`. For a fault it also prints how often the device has failed.
/// Returns an error if memory was refused.
fn show_store<H: FileStore>(
    rt: &HostRuntime,
    file_store: &mut H,
    name: &str,
    text: &str,
) -> Result<()> {
    match file_store.store(rt.alloc(), name, text.as_bytes()) {
        Ok(()) => println!(rt; "store {name}")?,
        Err(FileStoreFault::Memory) => return Err(Error::from(FileStoreFault::Memory)),
        Err(fault) => println!(rt; "store {name}: {fault}, failures {}", file_store.failures())?,
    }
    Ok(())
}

/// Prints what stores of the machine's files give, and which files are left beside them.
fn show_stored_files(rt: &HostRuntime) -> Result<()> {
    let mut machine = DiskFileStore::new(rt);
    for (name, text) in [
        ("stored", "1"),
        ("stored", "2"),
        ("stored/x", "3"),
        ("no such folder/x", "4"),
        (".", "5"),
        ("stored.part", "6"),
        ("stored", "7"),
    ] {
        show_store(rt, &mut machine, name, text)?;
        show_load(rt, &mut machine, "stored")?;
        show_load(rt, &mut machine, "stored.part")?;
    }
    show_load(rt, &mut machine, "stored.part2")?;
    fs::remove_file(rt, "stored.part")?;
    fs::remove_file(rt, "stored")?;
    Ok(())
}

/// Prints what a file store in memory gives before and after files are stored.
fn show_memory(rt: &HostRuntime) -> Result<()> {
    let alloc = rt.alloc();
    let mut file_store = MemoryFileStore::new(alloc, Vec::new(alloc));
    show_load(rt, &mut file_store, "a")?;
    for (name, bytes) in [("a", "1"), ("b", "2"), ("a", "3")] {
        file_store.store(alloc, name, bytes.as_bytes())?;
    }
    show_load(rt, &mut file_store, "a")?;
    show_load(rt, &mut file_store, "b")?;
    for file in file_store.stored_files() {
        println!(rt; "stored {}", file.name.as_str())?;
    }
    Ok(())
}

/// Prints what file stores give.
pub(crate) fn show(rt: &HostRuntime) -> Result<()> {
    let mut machine = DiskFileStore::new(rt);
    show_load(rt, &mut machine, "no such file")?;
    show_load(rt, &mut machine, ".")?;
    show_stored_files(rt)?;
    show_memory(rt)
}
