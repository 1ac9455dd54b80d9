//! Problems with the names of their counties, and the tables of groupings.

ghost use Rattle.std.specs.Prelude.{◌≡◌, IfOk, option_map};
ghost use Rattle.run_laws.specs.TableSteps.{table_of as table_text_of};
ghost use Rattle.cli_reports.specs.Texts.{tabled_of};

use cli_answers::RunAnswer;
use county_codes::Grouping;
use county_problem::Problem;
use grouping_table::county_table;
use pl94_counties::NamedCounty;
use std::alloc::{AllocError, Global};

/// A problem, and all listed counties with their names if a table is asked for.
#[derive(Drop)]
pub struct Tabled {
    /// The problem.
    pub problem: Problem,
    /// All listed counties with their names, also those of withdrawn sets. `None` if no table is asked for.
    pub named: Option<Vec<NamedCounty>>,
}

/// What a command says, and the text of its table.
#[derive(Drop)]
pub struct Reported {
    /// The report or the line that stands in its place, with its status.
    pub answer: RunAnswer,
    /// The table of the grouping that is reported. `None` if there is no such grouping, or if no table is asked for.
    pub table: Option<Vec<u8>>,
}

/// Returns the table of `grouping`, or `None` if no table is asked for.
pub(crate) fn table_of(
    alloc: Global,
    tabled: &Tabled,
    grouping: &Grouping,
) -> Result<Option<Vec<u8>>, AllocError>
    ensures { IfOk result (λ table. option_map (λ t. t.items) table
        ≡ table_text_of (tabled_of tabled.now) grouping.now.groups.items) }
{
    match &tabled.named {
        Some(named) => {
            let table = county_table(alloc, named, tabled.problem.withdrawn(), &grouping.groups)?;
            Ok(Some(table))
        }
        None => Ok(None),
    }
}
