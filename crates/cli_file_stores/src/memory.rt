//! Files in memory as a file store.

ghost use Rattle.std.specs.Prelude.{◌≡◌, ℕ, List, [], Option, Some, None, IfOk, IfErr, IfSome, ◌++◌, OnOk, OnErr, option_map, string_bytes, map, ◌≤◌, vec_len};
ghost use Rattle.std.specs.Option.{option_or};
ghost use Rattle.cli_file_stores.specs.{Files.{held, with_file}, FileStore.{Loads, Opens, CountsFailures, read_end}};
ghost use Rattle.cli_file_stores.specs.Memory.{bytes_in, files_of, HasPlace, ReaderEndsIn};
ghost use Rattle.cli_file_stores.specs.declared.file_store.FileStoreFault.TheVariants.{Memory};

use crate::file_store::{FileStore, FileStoreFault, MAX_FILE, ReadEnd};
use crate::memory_reader::MemoryReader;
use crate::sums::{EventSum, EventSums};
use std::alloc::{AllocError, Global};
use std::marker::Model;

/// A file in memory.
#[derive(Drop)]
pub struct MemoryFile {
    /// The name.
    pub name: String,
    /// The bytes.
    pub bytes: Vec<u8>,
}

/// A file store in memory: the files that it began with, and those that were stored since.
#[derive(Drop)]
pub struct MemoryFileStore {
    files: Vec<MemoryFile>,
    stored: Vec<MemoryFile>,
    log: EventSums,
}

impl Model for MemoryFileStore {
    ghost use Rattle.cli_file_stores.specs.Memory.{MemoryValue, files_of};

    /// The files that it began with, those that were stored, and what was loaded, read and stored.
    ghost Value = { MemoryValue };

    ghost view = { λ s. record { files = files_of s.files.items; stored = files_of s.stored.items; events = s.log } };
}

/// Returns the first of `files` that has this `name`.
fn file_named<'a>(files: &'a [MemoryFile], name: &str) -> Option<&'a MemoryFile>
    ensures { bytes_in result ≡ held (files_of files.now) name.now }
{
    for file in files {
        if file.name.as_str() == name {
            return Some(file);
        }
    }
    None
}

/// Returns the index in `files` of the first file that has this `name`.
fn place_of(files: &[MemoryFile], name: &str) -> Option<usize>
    ensures { HasPlace (files_of files.now) name.now result }
{
    for (i, file) in files.iter().enumerate() {
        if file.name.as_str() == name {
            return Some(i);
        }
    }
    None
}

/// Puts a file of these `bytes` in the place of the first one in `files` that has this `name`, or last if there is
/// none. If memory was refused, `files` stays as it was.
fn put_file(
    alloc: Global,
    files: &mut Vec<MemoryFile>,
    name: &str,
    bytes: Vec<u8>,
) -> Result<(), AllocError>
    ensures put { OnOk result (files_of files.new.items ≡ with_file (files_of files.old.items) name.now bytes.items) }
    ensures same { OnErr result (files.new.items ≡ files.old.items) }
{
    let name_copy = String::from_str(alloc, name)?;
    let file = MemoryFile {
        name: name_copy,
        bytes,
    };
    match place_of(files, name) {
        Some(place) => files[place] = file,
        None => files.push(file)?,
    }
    Ok(())
}

impl MemoryFileStore {
    /// Creates a file store of these `files`. Where several have one name, the first counts.
    pub fn new(alloc: Global, files: Vec<MemoryFile>) -> Self
        ensures files { result.files ≡ files_of files.items }
        ensures stored { result.stored ≡ [] }
        ensures events { result.events ≡ [] }
    {
        MemoryFileStore {
            files,
            stored: Vec::new(alloc),
            log: EventSums::new(),
        }
    }

    /// Returns the file that was stored under `name`, or else the first of that name among those that the file store
    /// began with.
    fn file(&self, name: &str) -> Option<&MemoryFile>
        ensures { bytes_in result ≡ option_or (held self.now.stored name.now) (held self.now.files name.now) }
    {
        let stored = file_named(self.stored.as_slice(), name);
        if stored.is_some() {
            return stored;
        }
        file_named(self.files.as_slice(), name)
    }

    /// Returns a copy of the bytes of the file of this `name`, however many they are.
    fn copy_of(&self, alloc: Global, name: &str) -> Result<Vec<u8>, FileStoreFault>
        ensures opened { Opens (Some (λ n. option_or (held self.now.stored n) (held self.now.files n))) 0 name.now result }
        ensures counted { CountsFailures 0 0 result }
    {
        match self.file(name) {
            None => Err(FileStoreFault::Missing),
            Some(file) => Ok(Vec::from_slice(alloc, file.bytes.as_slice())?),
        }
    }

    /// Stores a copy of `bytes` under `name`. If memory was refused, the stored files stay as they were.
    fn put(&mut self, alloc: Global, name: &str, bytes: &[u8]) -> Result<(), FileStoreFault>
        ensures put { OnOk result (self.new.stored ≡ with_file self.old.stored name.now bytes.now) }
        ensures same { OnErr result (self.new.stored ≡ self.old.stored) }
        ensures files { self.new.files ≡ self.old.files }
        ensures events { self.new.events ≡ self.old.events }
        ensures memory { IfErr result (λ fault. fault ≡ Memory) }
    {
        let bytes = Vec::from_slice(alloc, bytes)?;
        put_file(alloc, &mut self.stored, name, bytes)?;
        Ok(())
    }

    /// Returns a copy of the bytes of the file of this `name`, if they are at most `MAX_FILE`.
    fn bytes(&self, alloc: Global, name: &str) -> Result<Vec<u8>, FileStoreFault>
        ensures small { IfOk result (λ v. vec_len v ≤ 1073741824) }
        ensures loaded { Loads (λ v. v.items) (λ n. option_or (held self.now.stored n) (held self.now.files n)) 0 name.now result }
        ensures counted { CountsFailures 0 0 result }
    {
        match self.file(name) {
            None => Err(FileStoreFault::Missing),
            Some(file) if file.bytes.len() > MAX_FILE => Err(FileStoreFault::TooLarge),
            Some(file) => Ok(Vec::from_slice(alloc, file.bytes.as_slice())?),
        }
    }

    /// Returns the files that were stored, each name once, in the order in which the names were first stored.
    pub fn stored_files(&self) -> &[MemoryFile]
        ensures { files_of result.now ≡ self.now.stored }
    {
        self.stored.as_slice()
    }
}

/// Returns what follows `given` in `bytes`, or `None` if `bytes` doesn't begin with `given`.
fn rest_behind<'a>(bytes: &'a [u8], given: &[u8]) -> Option<&'a [u8]>
    ensures { IfSome result (λ rest. bytes.now ≡ given.now ++ rest.now) }
{
    if bytes.len() < given.len() {
        return None;
    }
    let (front, rest) = bytes.split_at(given.len());
    if front == given { Some(rest) } else { None }
}

/// Returns where a reader stood that gave the bytes `given` of `file`: at the end of the file if `has_ended` is true.
/// Returns `Missing` if there is no such file, if it doesn't begin with these bytes, or if the reader ended before the
/// end of the file.
fn end_in(
    file: Option<&MemoryFile>,
    given: &[u8],
    has_ended: bool,
) -> Result<ReadEnd, FileStoreFault>
    ensures told { ReaderEndsIn (bytes_in file.entry) given.now result }
    ensures end { IfOk result (λ end. end ≡ read_end has_ended) }
    ensures counted { CountsFailures 0 0 result }
{
    let Some(file) = file else {
        return Err(FileStoreFault::Missing);
    };
    match rest_behind(file.bytes.as_slice(), given) {
        Some([]) if has_ended => Ok(ReadEnd::Whole),
        Some(_) if !has_ended => Ok(ReadEnd::Part),
        _ => Err(FileStoreFault::Missing),
    }
}

impl FileStore for MemoryFileStore {
    type Reader = MemoryReader;

    ghost contents = { λ s. Some (λ name. option_or (held s.stored name) (held s.files name)) };

    ghost stored = { λ s. Some s.stored };

    ghost history = { λ s. record { failures = 0; events = s.events } };

    fn load(&mut self, alloc: Global, name: &str) -> Result<Vec<u8>, FileStoreFault> {
        let answer = self.bytes(alloc, name);
        self.log.note_load(name, &answer);
        answer
    }

    fn reader(&mut self, alloc: Global, name: &str) -> Result<MemoryReader, FileStoreFault> {
        match self.copy_of(alloc, name) {
            Ok(bytes) => Ok(MemoryReader::new(bytes)),
            Err(fault) => {
                self.log.note_load(name, &Err(fault));
                Err(fault)
            }
        }
    }

    fn give_back(&mut self, name: &str, reader: MemoryReader) -> Result<ReadEnd, FileStoreFault> {
        let answer = end_in(self.file(name), reader.given(), reader.has_ended());
        let sum = reader.sum_if(self.log.are_kept());
        self.log.note_read(name, reader.log(), sum, &answer);
        answer
    }

    fn store(&mut self, alloc: Global, name: &str, bytes: &[u8]) -> Result<(), FileStoreFault> {
        let answer = self.put(alloc, name, bytes);
        self.log.note_store(name, bytes, &answer);
        answer
    }

    fn failures(&self) -> u64 {
        0
    }

    fn keep_sums(&mut self, alloc: Global) {
        self.log.keep(alloc);
    }

    fn events(&self) -> u64 {
        self.log.count()
    }

    fn sums(&self) -> Option<&[EventSum]> {
        self.log.sums()
    }
}
