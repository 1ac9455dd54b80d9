//! Files that are read piece by piece: they are opened, and their readers are given back.

ghost use Rattle.std.specs.Prelude.{◌≡◌, false, Ok, Err, IfOk, OnOk, MatchResult};
ghost use Rattle.field_lines.specs.Source.{nothing_given};
ghost use Rattle.cli_answers.specs.Answers.{Comes, AnswerMeets};
ghost use Rattle.run_laws.specs.Reading.{open_step, read_both};
ghost use Rattle.cli.specs.Streams.{given_back, both_given_back, AreBack};

use cli_answers::{FileOption, Refusal, refuse_load};
use cli_file_stores::{FileStore, FileStoreFault, ReadEnd};
use cli_words::CensusWords;
use std::alloc::Global;

/// Opens the file of `option`, and returns its reader.
pub(crate) fn open<H: FileStore>(
    alloc: Global,
    option: FileOption,
    name: &str,
    file_store: &mut H,
) -> Result<H::Reader, Refusal>
    ensures steps { Comes (λ reader. tt) result (open_step (H.contents file_store.old) name.now (H.history file_store.old) (H.history file_store.new)) }
    ensures given { IfOk result (λ reader. H.Reader.given reader ≡ nothing_given) }
    ensures sound { IfOk result (λ reader. H.Reader.is_failed reader ≡ false) }
    ensures same { H.contents file_store.new ≡ H.contents file_store.old }
    ensures kept { H.stored file_store.new ≡ H.stored file_store.old }
{
    match file_store.reader(alloc, name) {
        Ok(reader) => Ok(reader),
        Err(fault) => Err(refuse_load(alloc, option, name, fault)),
    }
}

/// Gives back the reader of the file of `option`. Returns a refusal if the reader's last pull failed.
pub(crate) fn give_one_back<H: FileStore>(
    alloc: Global,
    option: FileOption,
    name: &str,
    reader: H::Reader,
    file_store: &mut H,
) -> Result<(), Refusal>
    ensures back { Comes (λ _. H.Reader.given reader) result (given_back (H.contents file_store.old) name.now (H.history file_store.old) (H.history file_store.new)) }
    ensures sound { OnOk result (H.Reader.is_failed reader ≡ false) }
    ensures same { H.contents file_store.new ≡ H.contents file_store.old }
    ensures kept { H.stored file_store.new ≡ H.stored file_store.old }
{
    match file_store.give_back(name, reader) {
        Ok(_) => Ok(()),
        Err(fault) => Err(refuse_load(alloc, option, name, fault)),
    }
}

/// Opens both census files that `words` name, the geographic header first. Returns the reader of the header and then
/// that of segment 1.
pub(crate) fn open_both<H: FileStore>(
    alloc: Global,
    words: CensusWords<'_>,
    file_store: &mut H,
) -> Result<(H::Reader, H::Reader), Refusal>
    ensures opened { MatchResult
        result
        (λ _. H.history file_store.new ≡ H.history file_store.old)
        (λ refusal. AnswerMeets refusal (λ a. read_both (H.contents file_store.old) words.entry.geo.now words.entry.segment.now (H.history file_store.old) (H.history file_store.new) (Err a))) }
    ensures given { IfOk result (λ both. (H.Reader.given both.0 ≡ nothing_given) × (H.Reader.given both.1 ≡ nothing_given)) }
    ensures sound { IfOk result (λ both. (H.Reader.is_failed both.0 ≡ false) × (H.Reader.is_failed both.1 ≡ false)) }
    ensures same { H.contents file_store.new ≡ H.contents file_store.old }
    ensures kept { H.stored file_store.new ≡ H.stored file_store.old }
{
    let geo = open(alloc, FileOption::Geo, words.geo, file_store)?;
    let segment = open(alloc, FileOption::Segment, words.segment, file_store)?;
    Ok((geo, segment))
}

/// Checks from `geo` and `segment`, what the file store says of each reader, that neither failed. Returns the refusal
/// of the one that failed. If both failed, the refusal is that of segment 1.
fn if_sound(
    alloc: Global,
    words: CensusWords<'_>,
    geo: Result<ReadEnd, FileStoreFault>,
    segment: Result<ReadEnd, FileStoreFault>,
) -> Result<(), Refusal>
    ensures { AreBack words.entry.geo.now words.entry.segment.now geo segment result }
{
    match (segment, geo) {
        (Ok(_), Ok(_)) => Ok(()),
        (Ok(_), Err(fault)) => Err(refuse_load(alloc, FileOption::Geo, words.geo, fault)),
        (Err(fault), _) => Err(refuse_load(alloc, FileOption::Segment, words.segment, fault)),
    }
}

/// Gives back both `readers` of the census files that `words` name, that of segment 1 first. Returns a refusal if the
/// last pull of one of them failed.
pub(crate) fn give_both_back<H: FileStore>(
    alloc: Global,
    words: CensusWords<'_>,
    readers: (H::Reader, H::Reader),
    file_store: &mut H,
) -> Result<(), Refusal>
    ensures back { Comes
        (λ _. (H.Reader.given readers.0, H.Reader.given readers.1))
        result
        (both_given_back (H.contents file_store.old) words.entry.geo.now words.entry.segment.now (H.history file_store.old) (H.history file_store.new)) }
    ensures geo_sound { OnOk result (H.Reader.is_failed readers.0 ≡ false) }
    ensures segment_sound { OnOk result (H.Reader.is_failed readers.1 ≡ false) }
    ensures same { H.contents file_store.new ≡ H.contents file_store.old }
    ensures kept { H.stored file_store.new ≡ H.stored file_store.old }
{
    let (geo, segment) = readers;
    let segment_end = file_store.give_back(words.segment, segment);
    let geo_end = file_store.give_back(words.geo, geo);
    if_sound(alloc, words, geo_end, segment_end)
}
