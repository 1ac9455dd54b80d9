//! The lines of the files that a command stores.

ghost use Rattle.std.specs.Prelude.{◌≡◌, ◌++◌, List, IfOk, OnOk, map};
ghost use Rattle.cli_file_stores.specs.{declared.sums.EventKind.TheVariants.Taken, Sums.sum_value};
ghost use Rattle.cli_record.specs.RunRecord.{stored_line_of};
ghost use Rattle.cli_record.specs.RecordFiles.{at_status, if_answered, if_given, if_listed, files_stored, stored_value};
ghost use Rattle.cli_record.specs.RecordFiles.{options_to_store as options_of};
ghost use Rattle.cli_words.specs.declared.words.CommandWords.TheVariants.{List as ListAll, Solve};

use crate::reads::went;
use crate::run::{FileStored, StoreOption};
use cli_file_stores::{EventKind, EventSum};
use cli_words::{CommandWords, ListWords, SolveWords, StoredWords};
use std::alloc::{AllocError, Global};

/// Appends `option`, if the words name its file.
fn push_if_given(
    options: &mut Vec<StoreOption>,
    option: StoreOption,
    name: Option<&str>,
) -> Result<(), AllocError>
    ensures { OnOk result (options.new.items ≡ options.old.items ++ if_given option name.entry) }
{
    if name.is_none() {
        return Ok(());
    }
    match options.push(option) {
        Ok(()) => Ok(()),
        Err(_) => Err(AllocError),
    }
}

/// Appends the options whose files `solve` stores if it ends with `status`.
fn push_solve(
    options: &mut Vec<StoreOption>,
    words: &SolveWords<'_>,
    status: u8,
) -> Result<(), AllocError>
    ensures { OnOk result (options.new.items ≡ options.old.items ++ options_of (Solve words.now) status) }
{
    if status != 3 {
        push_if_given(options, StoreOption::Certificate, words.certificate)?;
    }
    if status != 1 {
        push_if_given(options, StoreOption::Out, words.out)?;
        push_if_given(options, StoreOption::Table, words.table)?;
    }
    if status == 3 {
        push_if_given(options, StoreOption::Events, words.events)?;
    }
    Ok(())
}

/// Appends `option`, if the words name its file and the run ends with status 0.
fn push_at_0(
    options: &mut Vec<StoreOption>,
    option: StoreOption,
    name: Option<&str>,
    status: u8,
) -> Result<(), AllocError>
    ensures { OnOk result (options.new.items ≡ options.old.items ++ at_status 0 status (if_given option name.entry)) }
{
    if status == 0 {
        push_if_given(options, option, name)
    } else {
        Ok(())
    }
}

/// Appends `option`, if the words name its file and the run ends with status 0 or 1.
fn push_at_0_or_1(
    options: &mut Vec<StoreOption>,
    option: StoreOption,
    name: Option<&str>,
    status: u8,
) -> Result<(), AllocError>
    ensures { OnOk result (options.new.items ≡ options.old.items ++ if_answered status (if_given option name.entry)) }
{
    if status <= 1 {
        push_if_given(options, option, name)
    } else {
        Ok(())
    }
}

/// Appends `Out`, the option of a listed grouping, to `options`, if `words` ask for one to be stored.
fn push_if_listed(
    options: &mut Vec<StoreOption>,
    words: &Option<StoredWords<'_>>,
) -> Result<(), AllocError>
    ensures { OnOk result (options.new.items ≡ options.old.items ++ if_listed words.now) }
{
    match words {
        Some(stored) => push_if_given(options, StoreOption::Out, Some(stored.out)),
        None => Ok(()),
    }
}

/// Appends the options whose files `list` stores if it ends with `status`.
fn push_list(
    options: &mut Vec<StoreOption>,
    words: &ListWords<'_>,
    status: u8,
) -> Result<(), AllocError>
    ensures { OnOk result (options.new.items ≡ options.old.items ++ options_of (ListAll words.now) status) }
{
    if status <= 1 {
        push_if_listed(options, &words.stored)?;
        push_if_given(options, StoreOption::Groupings, words.groupings)
    } else {
        Ok(())
    }
}

/// Appends the options whose files `command` stores if it ends with `status`, in the order of storing.
fn push_options(
    options: &mut Vec<StoreOption>,
    command: &CommandWords<'_>,
    status: u8,
) -> Result<(), AllocError>
    ensures { OnOk result (options.new.items ≡ options.old.items ++ options_of command.now status) }
{
    match command {
        CommandWords::Judge(words) => {
            push_at_0_or_1(options, StoreOption::Table, words.table, status)
        }
        CommandWords::Solve(words) => push_solve(options, words, status),
        CommandWords::Check(words) => push_at_0(options, StoreOption::Table, words.table, status),
        CommandWords::Audit(words) => {
            push_at_0_or_1(options, StoreOption::Districts, words.districts, status)
        }
        CommandWords::List(words) => push_list(options, words, status),
        CommandWords::Share(words) => {
            push_at_0(options, StoreOption::Certificate, words.certificate, status)
        }
        CommandWords::Size(_) | CommandWords::Piece(_) | CommandWords::Worker(_) => Ok(()),
    }
}

/// Returns the options whose files `command` stores if it ends with `status`, in the order of storing.
fn options_to_store(
    alloc: Global,
    command: &CommandWords<'_>,
    status: u8,
) -> Result<Vec<StoreOption>, AllocError>
    ensures { IfOk result (λ v. v.items ≡ options_of command.now status) }
{
    let mut options = Vec::new(alloc);
    push_options(&mut options, command, status)?;
    Ok(options)
}

/// Returns the line of a file that was stored for `option`.
fn stored_line(option: StoreOption, sum: &EventSum) -> Result<FileStored, AllocError>
    ensures { IfOk result (λ line. stored_line_of line ≡ stored_value option (sum_value sum.now)) }
{
    let alloc = *sum.name.allocator();
    Ok(FileStored {
        option,
        sum: sum.sum.copy(),
        name: String::from_str(alloc, sum.name.as_str())?,
    })
}

/// Returns the line of each file that was stored. The first file has the first of `options`, and so on. Files beyond
/// the last option are left out.
fn with_options(
    alloc: Global,
    options: &[StoreOption],
    sums: &[EventSum],
) -> Result<Vec<FileStored>, AllocError>
    ensures { IfOk result (λ v. map stored_line_of v.items ≡ files_stored options.now (map sum_value sums.now)) }
{
    let mut stored = Vec::new(alloc);
    let mut rest = options;
    for sum in sums {
        if went(EventKind::Taken, sum.kind) {
            let [option, more @ ..] = rest else {
                return Ok(stored);
            };
            stored.push(stored_line(*option, sum)?)?;
            rest = more;
        }
    }
    Ok(stored)
}

/// Returns the lines of the files that `command` stored, if it ends with `status`. `sums` are the sums of the run's
/// events.
pub(crate) fn stores_of(
    alloc: Global,
    sums: &[EventSum],
    command: &CommandWords<'_>,
    status: u8,
) -> Result<Vec<FileStored>, AllocError>
    ensures { IfOk result (λ v. map stored_line_of v.items
        ≡ files_stored (options_of command.now status) (map sum_value sums.now)) }
{
    let options = options_to_store(alloc, command, status)?;
    with_options(alloc, &options, sums)
}
