//! Files in memory and a file of the machine: what their readers gave, where they stood, and what is stored.

use anyhow::{Error, Result};
use cli_file_stores::{
    DiskFileStore, FileStore, FileStoreFault, MemoryFile, MemoryFileStore, ReadEnd,
};
use field_lines::Source;
use std::alloc::Global;
use std::{fs, str};

/// The text of the file `ten`.
const TEN: &str = "0123456789";

/// Creates a file in memory with this `name` and `text`.
fn file(alloc: Global, name: &str, text: &str) -> Result<MemoryFile> {
    Ok(MemoryFile {
        name: String::from_str(alloc, name)?,
        bytes: Vec::from_slice(alloc, text.as_bytes())?,
    })
}

/// Creates a file store of three files: one of ten bytes, one without a byte, and another one with the name of the
/// first.
fn file_store(alloc: Global) -> Result<MemoryFileStore> {
    let mut files = Vec::new(alloc);
    for (name, text) in [("ten", TEN), ("empty", ""), ("ten", "later")] {
        files.push(file(alloc, name, text)?)?;
    }
    Ok(MemoryFileStore::new(alloc, files))
}

/// Returns what `pulls` pulls give, of at most four bytes each. A pull that fails gives the mark `!`.
fn pulled<S: Source>(alloc: Global, source: &mut S, pulls: u32) -> Result<String> {
    let mut text = String::new(alloc);
    for _ in 0..pulls {
        let mut buffer = [0u8; 4];
        match source.pull(&mut buffer) {
            Ok(count) => text.push_str(str::from_utf8(&buffer[..count])?)?,
            Err(_) => text.push_str("!")?,
        }
    }
    Ok(text)
}

/// Returns in words the `end`, where a reader stood, or the fault. Returns an error if memory was refused.
fn end_said(alloc: Global, end: Result<ReadEnd, FileStoreFault>) -> Result<String> {
    match end {
        Ok(end) => Ok(format!(in alloc; "{end:?}")?),
        Err(FileStoreFault::Memory) => Err(Error::from(FileStoreFault::Memory)),
        Err(fault) => Ok(format!(in alloc; "{fault}")?),
    }
}

/// Prints what a reader of the file `name` gives, and where it stood when it is given back under the name `back`.
fn show_reader<H: FileStore>(
    rt: &HostRuntime,
    file_store: &mut H,
    name: &str,
    pulls: u32,
    back: &str,
) -> Result<()> {
    let alloc = rt.alloc();
    let mut reader = match file_store.reader(alloc, name) {
        Ok(reader) => reader,
        Err(FileStoreFault::Memory) => return Err(Error::from(FileStoreFault::Memory)),
        Err(fault) => {
            println!(rt; "{name}: {fault}, failures {}", file_store.failures())?;
            return Ok(());
        }
    };
    let text = pulled(alloc, &mut reader, pulls)?;
    let end = end_said(alloc, file_store.give_back(back, reader))?;
    println!(rt;
        "{name} gave {text:?}, back as {back}: {end}, failures {}",
        file_store.failures()
    )?;
    Ok(())
}

/// Prints what a reader gives if another `text` is stored under the name of its file after the first pull. Then it
/// prints where the reader stood.
fn show_replaced(rt: &HostRuntime, text: &str, pulls: u32) -> Result<()> {
    let alloc = rt.alloc();
    let mut file_store = file_store(alloc)?;
    let mut reader = file_store.reader(alloc, "ten")?;
    let first = pulled(alloc, &mut reader, 1)?;
    file_store.store(alloc, "ten", text.as_bytes())?;
    let rest = pulled(alloc, &mut reader, pulls)?;
    let end = end_said(alloc, file_store.give_back("ten", reader))?;
    println!(rt; "ten gave {first:?} and {rest:?}, now {text:?}: {end}")?;
    Ok(())
}

/// Prints what readers of files in memory give and where they stood.
fn show_readers(rt: &HostRuntime) -> Result<()> {
    let mut memory = file_store(rt.alloc())?;
    for pulls in 0..5 {
        show_reader(rt, &mut memory, "ten", pulls, "ten")?;
    }
    for pulls in 0..2 {
        show_reader(rt, &mut memory, "empty", pulls, "empty")?;
        show_reader(rt, &mut memory, "ten", pulls, "empty")?;
        show_reader(rt, &mut memory, "ten", pulls, "none")?;
    }
    show_reader(rt, &mut memory, "none", 0, "none")
}

/// Prints what readers give whose file is replaced meanwhile, and where they stood.
fn show_replacements(rt: &HostRuntime) -> Result<()> {
    for text in [TEN, "01234567890", "0123", "012345678x", ""] {
        show_replaced(rt, text, 2)?;
        show_replaced(rt, text, 0)?;
    }
    Ok(())
}

/// Prints what readers of the machine's files give and where they stood.
fn show_machine(rt: &HostRuntime) -> Result<()> {
    let mut machine = DiskFileStore::new(rt);
    machine.store(rt.alloc(), "ten", TEN.as_bytes())?;
    for pulls in 0..5 {
        show_reader(rt, &mut machine, "ten", pulls, "ten")?;
    }
    show_reader(rt, &mut machine, "none", 0, "none")?;
    show_reader(rt, &mut machine, ".", 1, ".")?;
    fs::remove_file(rt, "ten")?;
    Ok(())
}

/// Returns in words what the load of the file `name` from `file_store` gives. Returns an error if memory was refused.
fn load_said(alloc: Global, file_store: &mut MemoryFileStore, name: &str) -> Result<String> {
    match file_store.load(alloc, name) {
        Ok(bytes) => Ok(format!(in alloc; "{:?}", str::from_utf8(&bytes)?)?),
        Err(FileStoreFault::Memory) => Err(Error::from(FileStoreFault::Memory)),
        Err(fault) => Ok(format!(in alloc; "{fault}")?),
    }
}

/// A file by its name and its text.
type NameAndText = (&'static str, &'static str);

/// Returns whether the stored files are these `files`, in this order.
fn are_stored(file_store: &MemoryFileStore, files: &[NameAndText]) -> bool {
    let stored = file_store.stored_files();
    stored.len() == files.len()
        && stored.iter().zip(files).all(|(file, (name, text))| {
            file.name.as_str() == *name && file.bytes.as_slice() == text.as_bytes()
        })
}

/// What is stored after one store, after two, and so on.
const ONE_STORE: &[NameAndText] = &[("ten", "one")];

const TWO_STORES: &[NameAndText] = &[("ten", "one"), ("new", "")];

const THREE_STORES: &[NameAndText] = &[("ten", "two"), ("new", "")];

const FOUR_STORES: &[NameAndText] = &[("ten", "two"), ("new", "three")];

/// Files that are stored one after the other, and what is stored before and after each.
const STORES: &[(NameAndText, &[NameAndText], &[NameAndText])] = &[
    (("ten", "one"), &[], ONE_STORE),
    (("new", ""), ONE_STORE, TWO_STORES),
    (("ten", "two"), TWO_STORES, THREE_STORES),
    (("new", "three"), THREE_STORES, FOUR_STORES),
];

/// Stores a file and checks which files are stored. If memory is refused they must be those `before`, and else those
/// `after`. Returns an error if they aren't, or if the store failed.
fn store(
    alloc: Global,
    file_store: &mut MemoryFileStore,
    (name, text): NameAndText,
    before: &[NameAndText],
    after: &[NameAndText],
) -> Result<()> {
    match file_store.store(alloc, name, text.as_bytes()) {
        Ok(()) if are_stored(file_store, after) => Ok(()),
        Ok(()) => Err(Error::msg("a store left other files than it should")),
        Err(fault) if are_stored(file_store, before) => Err(Error::from(fault)),
        Err(_) => Err(Error::msg("a store that failed changed the files")),
    }
}

/// Prints what the loads of three files give.
fn show_loads(rt: &HostRuntime, file_store: &mut MemoryFileStore) -> Result<()> {
    for name in ["ten", "new", "empty"] {
        let said = load_said(rt.alloc(), file_store, name)?;
        println!(rt; "{name}: {said}")?;
    }
    Ok(())
}

/// Prints the stored files.
fn show_stored(rt: &HostRuntime, file_store: &MemoryFileStore) -> Result<()> {
    for file in file_store.stored_files() {
        println!(rt;
            "stored {} {:?}",
            file.name.as_str(),
            str::from_utf8(&file.bytes)?
        )?;
    }
    Ok(())
}

/// Prints what is loaded before and after files are stored.
fn show_stores(rt: &HostRuntime) -> Result<()> {
    let alloc = rt.alloc();
    let mut file_store = file_store(alloc)?;
    for (file, before, after) in STORES {
        show_loads(rt, &mut file_store)?;
        store(alloc, &mut file_store, *file, before, after)?;
    }
    show_loads(rt, &mut file_store)?;
    show_stored(rt, &file_store)
}

/// Prints what files in memory and of the machine give.
pub(crate) fn show(rt: &HostRuntime) -> Result<()> {
    show_readers(rt)?;
    show_replacements(rt)?;
    show_machine(rt)?;
    show_stores(rt)
}
