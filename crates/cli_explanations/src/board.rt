//! Why there is no board, and what is left to do on one.

use crate::options::Options;
use cli_answers::FileOption;
use share_board::BoardFault;
use std::alloc::AllocError;
use std::fmt::Write;

const OPEN_PIECE: &str =
    "countygroups: the steps of --steps ran out before the piece was proved, and no branch of it was begun: give a greater number\n";

const PART_OF_PIECE: &str =
    "countygroups: the steps of --steps ran out before the piece was proved: append the part to the events, or give a greater number\n";

const NO_SUCH_PIECE: &str =
    "countygroups: no piece with the number of --number waits: `countygroups share` tells which do, by the same --events\n";

const SMALL_BUDGET: &str =
    "countygroups: the steps of --budget ran out before the board was opened: give a greater number, or a smaller --depth\n";

/// Returns what helps against a `fault` of the board.
fn remedy(fault: &BoardFault) -> &'static str {
    match fault {
        BoardFault::DepthOutOfRange => "--depth is 0 to 16",
        BoardFault::WrongOrder => "see that the problem has each county once",
        BoardFault::Target(_) => "give --grouping a lawful grouping: `countygroups judge` tells",
        BoardFault::LimitTooSmall => {
            "give --limit the number of counties of the longest group at least"
        }
        BoardFault::LimitTooLarge => "give --limit the number of counties at most",
        BoardFault::TooManyPieces => {
            "give a smaller --depth, or none: a wide board begins with one piece"
        }
        BoardFault::Budget | BoardFault::Memory => "",
    }
}

/// Explains the `fault` for which there is no board, and says what helps against it.
///
/// # Errors
///
/// Returns `AllocError` if memory was refused.
pub(crate) fn explain_board(
    out: &mut String,
    options: Options<'_>,
    fault: &BoardFault,
) -> Result<(), AllocError> {
    match fault {
        BoardFault::Budget => out.push_str(SMALL_BUDGET),
        BoardFault::Memory => {
            out.push_str("countygroups: memory was refused: more of it has to be free\n")
        }
        _ => {
            let (file, words) = (options.file(FileOption::Grouping), remedy(fault));
            writeln!(
                out,
                "countygroups: there is no board for {file}: {fault}\ncountygroups: {words}"
            )
        }
    }
}

/// Explains that `left` pieces of the board wait.
///
/// # Errors
///
/// Returns `AllocError` if memory was refused.
pub(crate) fn explain_left(out: &mut String, left: usize) -> Result<(), AllocError> {
    writeln!(
        out,
        "countygroups: {left} pieces wait: append to --events what `countygroups piece` prints of each, and run `countygroups share` again"
    )
}

/// Explains that the steps of a piece ran out. `is_part` tells whether a part of its proof is printed.
///
/// # Errors
///
/// Returns `AllocError` if memory was refused.
pub(crate) fn explain_open_piece(out: &mut String, is_part: bool) -> Result<(), AllocError> {
    out.push_str(if is_part { PART_OF_PIECE } else { OPEN_PIECE })
}

/// Explains that no piece with the number that was asked for waits.
///
/// # Errors
///
/// Returns `AllocError` if memory was refused.
pub(crate) fn explain_no_piece(out: &mut String) -> Result<(), AllocError> {
    out.push_str(NO_SUCH_PIECE)
}
