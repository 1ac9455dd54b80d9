//! The machine's files as a file store.

ghost use Rattle.std.specs.Prelude.{◌≡◌, ◌≢◌, ◌-◌, ◌^◌, ◌<◌, ◌≤◌, None, IfOk, vec_len};
ghost use Rattle.cli_file_stores.specs.{FileStore.{CountsFault, CountsFailures}, History.no_history};
ghost use Rattle.cli_file_stores.specs.declared.file_store.FileStoreFault.TheVariants.{Missing, TooLarge};

use crate::file_reader::FileReader;
use crate::file_store::{FileStore, FileStoreFault, MAX_FILE, ReadEnd};
use crate::machine::Machine;
use crate::replace::{Ready, open_ready, remove_ready, replace_file};
use crate::sums::{EventSum, EventSums};
use crate::whole_source::{WholeFault, read_whole};
use field_lines::Reading;
use std::alloc::Global;
use std::fs::OpenFile;
use std::io::{Error, ErrorKind, Read};
use std::rt::Files;
use std::{fs, io};

/// The name that stands for standard input where a file is read.
const INPUT: &str = "-";

/// The path of standard input.
const INPUT_PATH: &str = "/dev/stdin";

/// The machine's files. The name `-` stands for standard input where a file is read, and can be read once.
#[derive(Drop)]
pub struct DiskFileStore<R: Files> {
    rt: R,
    is_input_taken: bool,
    failures: u64,
    reason: Option<ErrorKind>,
    ready: Vec<Ready<R::File>>,
    log: EventSums,
}

impl<R: Machine + AllocGlobal> DiskFileStore<R> {
    /// Creates a file store of the files that `rt` reaches, with no failure and no event so far.
    pub fn new(rt: R) -> Self
        ensures { ⟦<DiskFileStore<R> as FileStore>⟧.history result ≡ no_history }
    {
        let ready = Vec::new(rt.alloc());
        DiskFileStore {
            rt,
            is_input_taken: false,
            failures: 0,
            reason: None,
            ready,
            log: EventSums::new(),
        }
    }

    /// Returns the kind of error that the system gave at the last load, opening, reading or store that failed. Returns
    /// `None` if none has failed, or if the system gave no error. It gives none where a file was too large, or where
    /// memory was refused for the bytes of a load.
    pub fn reason(&self) -> Option<ErrorKind> {
        self.reason
    }

    /// Opens the file beside the one that is to be stored under `name`, so that a later store of this name need not.
    /// Nothing is opened if the name leads to a device or a pipe. `remove_parts` removes the file if no store takes it.
    ///
    /// # Errors
    ///
    /// Returns the kind of error that the system gives if no file can be put under this name. A store would meet that
    /// error too, unless it has passed by then. Returns `OutOfMemory` if memory was refused.
    pub fn open_part(&mut self, alloc: Global, name: &str) -> Result<(), ErrorKind>
        ensures { ⟦<DiskFileStore<R> as FileStore>⟧.history self.new ≡ ⟦<DiskFileStore<R> as FileStore>⟧.history self.old }
    {
        if self.ready.reserve(1).is_err() {
            return Err(ErrorKind::OutOfMemory);
        }
        match open_ready(&self.rt, alloc, name) {
            Ok(Some(ready)) => self.ready.push(ready).map_err(|_| ErrorKind::OutOfMemory),
            Ok(None) => Ok(()),
            Err(error) => Err(error.kind()),
        }
    }

    /// Removes the files that `open_part` opened and no store took.
    pub fn remove_parts(&mut self)
        ensures { ⟦<DiskFileStore<R> as FileStore>⟧.history self.new ≡ ⟦<DiskFileStore<R> as FileStore>⟧.history self.old }
    {
        remove_ready(&self.rt, &mut self.ready);
    }
}

/// A reader that notes the kind of error that its last read gave.
#[derive(Drop)]
struct ReaderWithReason<'a, R> {
    reader: R,
    reason: &'a mut Option<ErrorKind>,
}

impl<R: Read> Read for ReaderWithReason<'_, R> {
    fn read(&mut self, buf: &mut [u8]) -> io::Result<usize> {
        match self.reader.read(buf) {
            Ok(count) => {
                *self.reason = None;
                Ok(count)
            }
            Err(error) => {
                *self.reason = Some(error.kind());
                Err(error)
            }
        }
    }
}

/// Returns whether the system says that `file` has more than `MAX_FILE` bytes.
fn is_too_large(file: &impl OpenFile) -> bool {
    match file.metadata() {
        Ok(metadata) => metadata.len() > MAX_FILE as u64,
        Err(_) => false,
    }
}

/// Counts a failure of the device in `failures`, and returns `Device`. At 2^64 - 1 the count stays, and the fault is
/// `Missing`.
fn device_fault(failures: &mut u64) -> FileStoreFault
    ensures counted { CountsFault failures.old failures.new result }
    ensures missing { result ≡ Missing → failures.old ≡ 2 ^ 64 - 1 }
    ensures not_large { result ≢ TooLarge }
{
    match failures.checked_add(1) {
        Some(more) => {
            *failures = more;
            FileStoreFault::Device
        }
        None => FileStoreFault::Missing,
    }
}

/// Returns the fault that an `error` of the system at a store stands for. It is `Memory` if memory was refused. Any
/// other error is counted in `failures` as a failure of the device, even if the folder of the name isn't there.
fn store_fault(error: &Error, failures: &mut u64) -> FileStoreFault
    ensures counted { CountsFault failures.old failures.new result }
    ensures missing { result ≡ Missing → failures.old ≡ 2 ^ 64 - 1 }
    ensures not_large { result ≢ TooLarge }
{
    match error.kind() {
        ErrorKind::OutOfMemory => FileStoreFault::Memory,
        _ => device_fault(failures),
    }
}

/// Returns the fault that an `error` of the system at a load stands for. It is `Missing` if the file isn't there, and
/// otherwise the fault that it would be at a store.
fn load_fault(error: &Error, failures: &mut u64) -> FileStoreFault
    ensures { CountsFault failures.old failures.new result }
{
    match error.kind() {
        ErrorKind::NotFound => FileStoreFault::Missing,
        _ => store_fault(error, failures),
    }
}

/// Returns the file store's fault for a `fault` of reading a file. `Failed` is counted in `failures` as a failure of
/// the device.
fn read_fault(fault: WholeFault, failures: &mut u64) -> FileStoreFault
    ensures { CountsFault failures.old failures.new result }
{
    match fault {
        WholeFault::TooLarge => FileStoreFault::TooLarge,
        WholeFault::Failed => device_fault(failures),
        WholeFault::Memory => FileStoreFault::Memory,
    }
}

impl<R: Machine + AllocGlobal> DiskFileStore<R> {
    /// Opens the file of this `name`, or standard input if the name is `-`. A second reader of standard input would get
    /// what the first one left, so it is refused.
    ///
    /// # Errors
    ///
    /// Returns `ResourceBusy` if standard input was opened before, and any other error as the system gives it.
    fn open(&mut self, name: &str) -> io::Result<R::File>
        ensures failures { self.new.failures ≡ self.old.failures }
        ensures log { self.new.log ≡ self.old.log }
    {
        if name != INPUT {
            return fs::open(&self.rt, name);
        }
        if self.is_input_taken {
            return Err(Error::from(ErrorKind::ResourceBusy));
        }
        self.is_input_taken = true;
        fs::open(&self.rt, INPUT_PATH)
    }

    /// Reads the file of this `name` whole. Reading stops once more than `MAX_FILE` bytes have come. A file that the
    /// system says is larger isn't read at all.
    fn read_file(&mut self, alloc: Global, name: &str) -> Result<Vec<u8>, FileStoreFault>
        ensures small { IfOk result (λ v. vec_len v ≤ 1073741824) }
        ensures counted { CountsFailures self.old.failures self.new.failures result }
        ensures same { self.new.log ≡ self.old.log }
    {
        let file = match self.open(name) {
            Ok(file) => file,
            Err(error) => {
                self.reason = Some(error.kind());
                return Err(load_fault(&error, &mut self.failures));
            }
        };
        if is_too_large(&file) {
            self.reason = None;
            return Err(FileStoreFault::TooLarge);
        }
        let mut reason = None;
        let mut source = Reading::new(ReaderWithReason {
            reader: file,
            reason: &mut reason,
        });
        let whole = read_whole(alloc, &mut source, MAX_FILE);
        drop(source);
        match whole {
            Ok(bytes) => Ok(bytes),
            Err(fault) => {
                self.reason = reason;
                Err(read_fault(fault, &mut self.failures))
            }
        }
    }
}

impl<R: Machine + AllocGlobal> FileStore for DiskFileStore<R> {
    type Reader = FileReader<R::File>;

    ghost contents = { λ _. None };

    ghost stored = { λ _. None };

    ghost history = { λ s. record { failures = s.failures; events = s.log } };

    fn load(&mut self, alloc: Global, name: &str) -> Result<Vec<u8>, FileStoreFault> {
        let answer = self.read_file(alloc, name);
        self.log.note_load(name, &answer);
        answer
    }

    fn reader(
        &mut self,
        _alloc: Global,
        name: &str,
    ) -> Result<FileReader<R::File>, FileStoreFault> {
        match self.open(name) {
            Ok(file) => Ok(FileReader::new(file, self.log.are_kept())),
            Err(error) => {
                self.reason = Some(error.kind());
                let fault = load_fault(&error, &mut self.failures);
                self.log.note_load(name, &Err(fault));
                Err(fault)
            }
        }
    }

    fn give_back(
        &mut self,
        name: &str,
        reader: FileReader<R::File>,
    ) -> Result<ReadEnd, FileStoreFault> {
        let answer = match reader.reason() {
            None => Ok(reader.end()),
            Some(reason) => {
                self.reason = Some(reason);
                Err(device_fault(&mut self.failures))
            }
        };
        let (given, sum) = reader.into_given();
        self.log.note_read(name, &given, sum, &answer);
        answer
    }

    /// Puts a file under `name` whole or not at all. The bytes go to a new file beside it, in the same folder, which is
    /// renamed once the device has all bytes. Then the folder is synced. Links of the name are followed and stay, and
    /// the file keeps the owner and the permissions of the one that it replaces, as far as the system lets it. The new
    /// file's name is that of the file with `.countygroups.part` behind it, or `.countygroups2.part` up to
    /// `.countygroups9.part` while other runs store this name. A long name is cut. Files of such names are this
    /// program's: one that a killed run has left is removed, as its advisory lock tells.
    ///
    /// At a fault, what stood under the name is as it was, and the new file is removed if that can be done. A name that
    /// leads to a folder or a read-only file is a failure of the device. A device, a pipe or standard output is written
    /// as it stands. There is nothing to put back, so at a fault a beginning of the bytes may be gone.
    fn store(&mut self, alloc: Global, name: &str, bytes: &[u8]) -> Result<(), FileStoreFault> {
        let answer = match replace_file(&self.rt, alloc, &mut self.ready, name, bytes) {
            Ok(()) => Ok(()),
            Err(error) => {
                self.reason = Some(error.kind());
                Err(store_fault(&error, &mut self.failures))
            }
        };
        self.log.note_store(name, bytes, &answer);
        answer
    }

    fn failures(&self) -> u64 {
        self.failures
    }

    fn keep_sums(&mut self, alloc: Global) {
        self.log.keep(alloc);
    }

    fn events(&self) -> u64 {
        self.log.count()
    }

    fn sums(&self) -> Option<&[EventSum]> {
        self.log.sums()
    }
}
