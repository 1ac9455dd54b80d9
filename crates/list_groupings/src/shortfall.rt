//! Whether a bound leaf falls short of the target's counts.

ghost use Rattle.std.specs.Prelude.{◌≡◌, ℕ, ◌+◌, ◌-◌, ◌≤◌, nat_lt, length, map};
ghost use Rattle.county_codes.specs.Limits.{most_counties};
ghost use Rattle.grouping_laws.specs.Grouping.{counts};
ghost use Rattle.grouping_laws.specs.Problem.{Problem as ProblemOf};
ghost use Rattle.county_problem.specs.CountList.{count_at};
ghost use Rattle.certificate_data.specs.{declared.format.Format.Format, TreeValue.allowance_of};
ghost use Rattle.certificate_laws.specs.State.{State};
ghost use Rattle.certificate_laws.specs.BoundLines.{allowance as allowance_at, Bounds};
ghost use Rattle.state_judge.specs.AllowanceVerdicts.{AllowanceIsSpelled};
ghost use Rattle.certificate_checker.specs.ReadableTrees.{AllowancesAreSpelled};
ghost use Rattle.list_laws.specs.Ends.{falls_short as is_short};
ghost use Rattle.list_laws.specs.Shortfalls.{still_wanted as counties_wanted};
ghost use Rattle.list_groupings.specs.Positions.{IsPosition};

use crate::position::Position;
use certificate_data::Allowance;
use county_codes::Codes;
use county_problem::Counts;

/// Counts the groups that have `size` counties.
fn groups_of_size(groups: &[Codes], size: u16) -> usize
    ensures value { result ≡ counts groups.now size }
    ensures few { result ≤ length groups.now }
{
    let mut count = 0;
    for group in groups {
        if group.as_slice().len() == usize::from(size) {
            count += 1;
        }
    }
    count
}

/// Returns how many counties the target's groups of at most `size` counties have together, without those that are
/// closed.
fn still_wanted(closed: &[Codes], wanted: &Counts, size: u16) -> usize
    requires small { size ≤ most_counties }
    ensures value { (s : State) → closed.now ≡ s.closed → result ≡ counties_wanted s (count_at wanted.now) size }
{
    let mut counties = 0;
    for before in 0..size {
        let size = before + 1;
        let missing = usize::from(wanted.of(size)).saturating_sub(groups_of_size(closed, size));
        counties += usize::from(size) * missing;
    }
    counties
}

/// Returns how many groups of `size` counties `line` allows, where smaller groups use up `used` counties.
fn allowance(position: &Position, line: &Allowance, size: u16, used: usize) -> u64
    requires few { length position.now.rest.items ≤ most_counties }
    requires some { 1 ≤ size }
    requires spelled { AllowanceIsSpelled line.now }
    ensures value { (p : ProblemOf) (s : State) → IsPosition p s position.now
        → result ≡ allowance_at p s size used (allowance_of line.now) }
{
    let size = u32::from(size);
    let open = position.open_counties(size) as usize;
    let room = open.saturating_sub(used) as u64 / u64::from(size);
    match line {
        Allowance::Room => room,
        Allowance::Weigh { quota, weights } => {
            room.min(position.open_weight(size, weights.as_slice()) / u64::from(*quota))
        }
    }
}

/// Returns whether the last line, for groups of `size` counties, gives fewer groups than the target has.
fn gives_fewer(position: &Position, wanted: &Counts, line: &Allowance, size: u16) -> bool
    requires few { length position.now.rest.items ≤ most_counties }
    requires some { 1 ≤ size }
    requires small { size ≤ most_counties }
    requires spelled { AllowanceIsSpelled line.now }
    ensures value { (p : ProblemOf) (s : State)
        → IsPosition p s position.now
        → result ≡ nat_lt (counts s.closed size
        + allowance_at p s size (counties_wanted s (count_at wanted.now) (size - 1)) (allowance_of line.now)) (count_at wanted.now size) }
{
    let used = still_wanted(&position.closed, wanted, size - 1);
    let closed = groups_of_size(&position.closed, size) as u64;
    let allowed = allowance(position, line, size, used);
    u64::from(wanted.of(size)).saturating_sub(closed) > allowed
}

/// Returns whether a valid bound leaf falls short of the target's counts. It does if it has fewer lines than `limit`,
/// or if its last line gives fewer groups than the target has.
pub(crate) fn falls_short(
    position: &Position,
    wanted: &Counts,
    limit: u16,
    lines: &[Allowance],
) -> bool
    requires few { length position.now.rest.items ≤ most_counties }
    requires small { limit ≤ most_counties }
    requires spelled { AllowancesAreSpelled (map allowance_of lines.now) }
    ensures value { (format : Format) (p : ProblemOf) (s : State)
        → IsPosition p s position.now
        → Bounds format p limit s (count_at wanted.now) 1 0 (map allowance_of lines.now)
        → result ≡ is_short p s (count_at wanted.now) 1 0 (map allowance_of lines.now) }
{
    if limit == 0 {
        return false;
    }
    if lines.len() < usize::from(limit) {
        return true;
    }
    gives_fewer(position, wanted, &lines[usize::from(limit) - 1], limit)
}
