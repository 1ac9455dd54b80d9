//! Records of runs, sums in pieces, and the answers that texts give.

use anyhow::Result;
use cli_file_stores::{RunningSum, sum_of};
use cli_record::{FileRead, FileStored, ReadFile, Run, StoreOption, answer_of, record_text};

/// Returns the text of `from` as a `String`.
fn text(rt: &HostRuntime, from: &str) -> Result<String> {
    Ok(String::from_str(rt.alloc(), from)?)
}

/// Returns the words `from` of a command as a list of `String`s.
fn words(rt: &HostRuntime, from: &[&str]) -> Result<Vec<String>> {
    let mut list = Vec::new(rt.alloc());
    for word in from {
        list.push(text(rt, word)?)?;
    }
    Ok(list)
}

/// Returns the files that a run read. The first was read in pieces, and the second was left before its end.
fn reads(rt: &HostRuntime) -> Result<Vec<FileRead>> {
    let mut sum = RunningSum::new();
    sum.update(b"a");
    sum.update(b"");
    sum.update(b"bc");
    let mut list = Vec::new(rt.alloc());
    list.push(FileRead {
        file: ReadFile::Geo,
        sum: sum.finish(),
        name: text(rt, "my geo.pl")?,
        left: false,
    })?;
    list.push(FileRead {
        file: ReadFile::Certificate,
        sum: sum_of(b""),
        name: text(rt, "tab\there")?,
        left: true,
    })?;
    Ok(list)
}

/// Returns the file that a run stored.
fn stores(rt: &HostRuntime) -> Result<Vec<FileStored>> {
    let mut list = Vec::new(rt.alloc());
    list.push(FileStored {
        option: StoreOption::Table,
        sum: sum_of(b"abc"),
        name: text(rt, "C:\\tables")?,
    })?;
    Ok(list)
}

/// Prints the record of `run`.
fn show_record(rt: &HostRuntime, run: &Run) -> Result<()> {
    let text = record_text(rt.alloc(), run)?;
    print!(rt; "{}", str::from_utf8(&text)?)?;
    Ok(())
}

/// Prints the answer that `text` gives, between brackets.
fn show_answer(rt: &HostRuntime, text: &str) -> Result<()> {
    println!(rt; "[{}]", str::from_utf8(answer_of(text.as_bytes()))?)?;
    Ok(())
}

/// Builds a run with words, files and an answer.
fn full_run(rt: &HostRuntime) -> Result<Run> {
    Ok(Run {
        version: text(rt, "1.2.3")?,
        words: words(rt, &["check", "--geo", "my geo.pl", "", "~ñ\u{7f}\\"])?,
        reads: reads(rt)?,
        stores: stores(rt)?,
        status: 0,
        answer: Vec::from_slice(rt.alloc(), answer_of(b"people 3\nanswer best\ncounts 1\n"))?,
    })
}

/// Builds a run without words, files or an answer.
fn empty_run(rt: &HostRuntime) -> Result<Run> {
    Ok(Run {
        version: text(rt, "")?,
        words: Vec::new(rt.alloc()),
        reads: Vec::new(rt.alloc()),
        stores: Vec::new(rt.alloc()),
        status: 3,
        answer: Vec::new(rt.alloc()),
    })
}

/// Prints two records, and the answers that texts give.
pub(crate) fn show(rt: &HostRuntime) -> Result<()> {
    show_record(rt, &full_run(rt)?)?;
    show_record(rt, &empty_run(rt)?)?;
    for text in [
        "people 3\nanswer open after 7 steps\nanswer best\n",
        "budget\n",
        "no answer here\nanswer",
        "answer ",
        "",
        "\nanswer \n",
    ] {
        show_answer(rt, text)?;
    }
    Ok(())
}
