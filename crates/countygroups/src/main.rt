//! The program `countygroups`. It runs the command that its words give over the machine's files, and writes to standard
//! output. Without any word, it runs a case from standard input, or prints its help if that is a terminal. What helps a
//! person is written to standard error.
#![tactic(auto)]

mod progress;

use crate::progress::Progress;
use cli::{EndedRun, run_program};
use cli_explanations::{Before, Ended, Options, Output, explain, explain_before, outputs_of};
use cli_file_stores::{DiskFileStore, Sink, Writing};
use field_lines::Reading;
use std::alloc::AllocError;
use std::fs::File;
use std::io::{ErrorKind, IsTerminal};
use std::process::ExitCode;
use std::{env, io};

/// The word that asks for help.
const HELP: &[&str] = &["--help"];

/// The null device, which is empty.
const NULL_DEVICE: &str = "/dev/null";

/// Returns the words that are run where `words` were given. They are those of help if none were given and standard
/// input is a terminal, where nobody types a case.
fn run_words<'a>(rt: &HostRuntime, words: &'a [&'a str]) -> &'a [&'a str] {
    if words.is_empty() && rt.stdin().is_terminal() {
        HELP
    } else {
        words
    }
}

/// Writes `text`, what a person is told, to standard error. If memory for the text was refused, says so.
fn tell(rt: &HostRuntime, text: Result<String, AllocError>) {
    match text {
        Ok(text) => {
            let _ = eprint!(rt; "{text}");
        }
        Err(AllocError) => {
            let _ = eprintln!(rt; "countygroups: memory was refused, so that no more is told");
        }
    }
}

/// A run over the machine's files that has ended.
#[derive(Drop)]
struct Ran {
    /// The exit status.
    status: u8,
    /// What it came to, and what it noted on its way.
    ended: EndedRun,
    /// What sort of error the system gave at the last file that failed.
    reason: Option<ErrorKind>,
}

/// Takes the numbers of the standard streams that are closed, if the run has `outputs`. The system gives a file the
/// least number that is free, and what is written to standard output isn't to go to such a file. The files that are
/// returned hold the numbers, and nothing can be written to them.
fn hold_streams(rt: &HostRuntime, outputs: &[Output<'_>]) -> [Option<File>; 3] {
    if outputs.is_empty() {
        return [None, None, None];
    }
    [
        File::open(rt, NULL_DEVICE).ok(),
        File::open(rt, NULL_DEVICE).ok(),
        File::open(rt, NULL_DEVICE).ok(),
    ]
}

/// Opens the files beside those of `outputs`, and notes why one could not be opened.
fn open_parts(
    rt: &HostRuntime,
    file_store: &mut DiskFileStore<&HostRuntime>,
    outputs: &mut [Output<'_>],
) {
    for output in outputs.iter_mut() {
        output.reason = file_store.open_part(rt.alloc(), output.path).err();
    }
}

/// Runs `words` over the files of `file_store`, or a case from standard input if there are no words.
fn run(
    rt: &HostRuntime,
    words: &[&str],
    file_store: &mut DiskFileStore<&HostRuntime>,
    out: &mut impl Sink,
) -> Ran {
    let mut input = Reading::new(rt.reader());
    let mut progress = Progress::new(rt);
    let (status, ended) = run_program(
        rt.alloc(),
        words,
        file_store,
        &mut input,
        out,
        &mut progress,
    );
    progress.clear();
    file_store.remove_parts();
    Ran {
        status,
        ended,
        reason: file_store.reason(),
    }
}

/// Tells what is amiss with the files of `options` and with the `outputs` before the run. Returns whether it was told
/// that the adjacency file has no border.
fn tell_before(rt: &HostRuntime, options: Options<'_>, outputs: &[Output<'_>]) -> bool {
    match explain_before(rt, options, outputs) {
        Ok(
            Before {
                text,
                is_without_borders,
            },
        ) => {
            tell(rt, Ok(text));
            is_without_borders
        }
        Err(AllocError) => {
            tell(rt, Err(AllocError));
            false
        }
    }
}

/// Runs `words`, and writes the answer to standard output. Returns the exit status. What is amiss before the run and
/// how the run ended are told on standard error.
fn run_and_tell(rt: &HostRuntime, words: &[&str]) -> u8 {
    let options = Options::of(rt.alloc(), words);
    let mut outputs = outputs_of(rt.alloc(), options).unwrap_or(Vec::new(rt.alloc()));
    let _held = hold_streams(rt, &outputs);
    let mut file_store = DiskFileStore::new(rt);
    open_parts(rt, &mut file_store, &mut outputs);
    let is_without_borders = tell_before(rt, options, &outputs);
    let mut out = Writing::new(io::writer(rt));
    let ran = run(rt, words, &mut file_store, &mut out);
    let ended = Ended {
        words,
        options,
        run: &ran.ended,
        reason: ran.reason,
        is_without_borders,
        is_unwritten: out.failed(),
        is_at_terminal: rt.stdout().is_terminal(),
    };
    tell(rt, explain(rt, ended));
    ran.status
}

/// Runs the words after the program's name, or a case if there are none. Returns the exit status.
fn answer(rt: &HostRuntime) -> io::Result<u8> {
    let all: Vec<String> = env::args(rt)?.collect(rt.alloc())?;
    let words: Vec<&str> = all
        .iter()
        .skip(1)
        .map(|word| word.as_str())
        .collect(rt.alloc())?;
    Ok(run_and_tell(rt, run_words(rt, &words)))
}

fn main(rt: HostRuntime) -> ExitCode {
    let status = match answer(&rt) {
        Ok(status) => status,
        Err(error) if error.kind() == ErrorKind::OutOfMemory => {
            let _ = print!(rt; "memory\n");
            let _ = eprintln!(rt; "countygroups: memory was refused: more of it has to be free");
            5
        }
        Err(_) => {
            let _ = eprintln!(rt; "countygroups: a word isn't UTF-8: each word and path has to be");
            2
        }
    };
    ExitCode::from(status)
}
