//! File stores: named files that are loaded, opened and stored.

ghost use Rattle.std.specs.Prelude.{◌≡◌, ◌-◌, ◌^◌, ◌<◌, ◌≤◌, false, List, Option, IfOk, IfSome, OnOk, OnErr, length, min, option_map, vec_len};
ghost use Rattle.cli_file_stores.specs.Files.{NamedFile, Files, with_file, with_bytes};
ghost use Rattle.cli_file_stores.specs.FileStore.{IsLoad, Opens, IsRead, IsStore, read_end};
ghost use Rattle.cli_file_stores.specs.declared.file_store.FileStoreFault.TheVariants.{Memory};
ghost use Rattle.cli_file_stores.specs.{History.{History, HasLoaded, HasOpened, HasRead, HasPut}, Sums.AreOfLast};
ghost use Rattle.field_lines.specs.Source.{nothing_given};

use crate::sums::EventSum;
use field_lines::Source;
use std::alloc::{AllocError, Global};
use thiserror::Error;

/// The most bytes that a file may have if it is to be read whole.
pub const MAX_FILE: usize = 1_073_741_824;

/// Why a file store gave or took nothing.
#[derive(Clone, Copy, Debug, PartialEq, Eq, Error)]
pub enum FileStoreFault {
    /// There is no file of this name.
    #[error("the file is missing")]
    Missing,
    /// The file has more than 1,073,741,824 bytes.
    #[error("the file is too large")]
    TooLarge,
    /// The device failed, and the count of failures rose.
    #[error("the device failed")]
    Device,
    /// Memory was refused.
    #[error("out of memory")]
    Memory,
}

/// Where a reader stood when it was given back.
#[derive(Clone, Copy, Debug, PartialEq, Eq)]
pub enum ReadEnd {
    /// At the end of its file. It gave all bytes, and its last pull that didn't fail gave none.
    Whole,
    /// Not at a known end: its last pull that didn't fail gave bytes, or there was no such pull. It gave a beginning of
    /// the bytes, or all of them.
    Part,
}

impl From<AllocError> for FileStoreFault {
    ghost from_gives = { λ _ e. e ≡ Memory };

    fn from(_e: AllocError) -> FileStoreFault {
        FileStoreFault::Memory
    }
}

/// Named files, such as those of the machine or of a case.
pub trait FileStore {
    /// What reads a file of the file store from its beginning on.
    type Reader: Source + Drop;

    /// The bytes under each name. Only some file stores tell them.
    ghost contents: { Self → Option Files };

    /// The files that were stored, each name once, in the order in which the names were first stored. Only some file
    /// stores tell them.
    ghost stored: { Self → Option (List NamedFile) };

    /// How often the device has failed, and what was loaded, read and stored so far.
    ghost history: { Self → History };

    /// Returns the bytes of the file of this `name`. What this load answered is then the last event of the history.
    ///
    /// # Errors
    ///
    /// Returns `Device` only if the count of failures rose in this call. That count never falls. If the file store
    /// tells its files, `Missing` means that there is none of this name, or that the device failed with its count at
    /// 2^64 - 1. `TooLarge` then means that the file has more than 1,073,741,824 bytes. No larger file is ever given.
    /// Returns `Memory` if memory was refused.
    fn load(&mut self, alloc: Global, name: &str) -> Result<Vec<u8>, FileStoreFault>
        ensures small { IfOk result (λ v. vec_len v ≤ 1073741824) }
        ensures loaded { IsLoad (λ v. v.items) (contents self.old) (history self.old).failures name.now result }
        ensures same { contents self.new ≡ contents self.old }
        ensures kept { stored self.new ≡ stored self.old }
        ensures logged { HasLoaded (λ v. v.items) (history self.old) (history self.new) name.now result };

    /// Opens the file of this `name`, to be read from its beginning on. The reader has given nothing, and hasn't
    /// failed. What it gives enters the history once it is given back.
    ///
    /// # Errors
    ///
    /// Returns the same errors as `load`, except that no file is too large. The fault is then the last event of the
    /// history, as after a load.
    fn reader(&mut self, alloc: Global, name: &str) -> Result<Self::Reader, FileStoreFault>
        ensures given { IfOk result (λ reader. Self.Reader.given reader ≡ nothing_given) }
        ensures sound { IfOk result (λ reader. Self.Reader.is_failed reader ≡ false) }
        ensures opened { Opens (contents self.old) (history self.old).failures name.now result }
        ensures same { contents self.new ≡ contents self.old }
        ensures kept { stored self.new ≡ stored self.old }
        ensures logged { HasOpened (history self.old) (history self.new) name.now result };

    /// Takes back the `reader` of the file of this `name`, and returns where it stood. The last event of the history is
    /// then the name, all bytes that the reader gave, and this answer. If the file store tells its files, the bytes are
    /// all those of the file where the reader stood at its end, and otherwise a beginning of them.
    ///
    /// # Errors
    ///
    /// Returns `Device` if the reader's last pull failed, and the count of failures rose. Returns `Missing` if that
    /// pull failed with the count at 2^64 - 1. If the file store tells its files, `Missing` may also mean that what the
    /// reader gave doesn't fit them. Then there is no file of this name, or it doesn't begin with those bytes, or it
    /// goes on where the reader ended. `Missing` has no other cause.
    fn give_back(&mut self, name: &str, reader: Self::Reader) -> Result<ReadEnd, FileStoreFault>
        ensures read { IsRead (contents self.old) name.now (Self.Reader.given reader).bytes result }
        ensures end { IfOk result (λ end. end ≡ read_end (Self.Reader.given reader).ended) }
        ensures sound { OnOk result (Self.Reader.is_failed reader ≡ false) }
        ensures same { contents self.new ≡ contents self.old }
        ensures kept { stored self.new ≡ stored self.old }
        ensures logged { HasRead (history self.old) (history self.new) name.now (Self.Reader.given reader).bytes result };

    /// Puts a file of these `bytes` under `name`, in the place of the one that was there. The last event of the history
    /// is then the name, the bytes, and whether they were taken.
    ///
    /// # Errors
    ///
    /// Returns `Device` if the device failed, and the count of failures rose. Returns `Missing` only if the device
    /// failed with its count at 2^64 - 1, and `TooLarge` only above 1,073,741,824 bytes. Returns `Memory` if memory was
    /// refused. After each of these errors the files are as before, if the file store tells them.
    fn store(&mut self, alloc: Global, name: &str, bytes: &[u8]) -> Result<(), FileStoreFault>
        ensures put { OnOk result (contents self.new
            ≡ option_map (λ files. with_bytes files name.now bytes.now) (contents self.old)) }
        ensures listed { OnOk result (stored self.new
            ≡ option_map (λ files. with_file files name.now bytes.now) (stored self.old)) }
        ensures same { OnErr result (contents self.new ≡ contents self.old) }
        ensures kept { OnErr result (stored self.new ≡ stored self.old) }
        ensures answer { IsStore (history self.old).failures bytes.now result }
        ensures logged { HasPut (history self.old) (history self.new) name.now bytes.now result };

    /// Returns how often the device has failed.
    fn failures(&self) -> u64
        ensures { result ≡ (history self.now).failures };

    /// Starts to keep the sums of what the file store gives and takes from now on. Drops the sums that were kept
    /// before.
    fn keep_sums(&mut self, alloc: Global)
        ensures same { contents self.new ≡ contents self.old }
        ensures kept { stored self.new ≡ stored self.old }
        ensures still { history self.new ≡ history self.old };

    /// Returns how many events the history has, or 2^64 - 1 if it has more.
    fn events(&self) -> u64
        ensures { result ≡ min (length (history self.now).events) (2 ^ 64 - 1) };

    /// Returns the sums of the last events of the history, one for each event since the file store began to keep sums.
    /// Returns `None` if the file store keeps none, or if memory was refused for one of them.
    fn sums(&self) -> Option<&[EventSum]>
        ensures { IfSome result (λ sums. AreOfLast (history self.now).events sums.now) };
}
