//! Groupings without their seats.

ghost use Rattle.std.specs.Prelude.{◌≡◌, ◌↔◌, ℕ, IfOk, IsTrue, List, map, length};
ghost use Rattle.grouping_laws.specs.Grouping.{sets_of};
ghost use Rattle.list_report.specs.SharedSets.{same_sets};

use county_codes::{Codes, Group, Grouping};
use std::alloc::{AllocError, Global};
use std::marker::Model;

/// The sets of a grouping's groups, in their order.
#[derive(Debug, Drop)]
pub(crate) struct Sets {
    sets: Vec<Codes>,
}

impl Model for Sets {
    ghost use Rattle.std.specs.Prelude.{ℕ, List};

    /// The codes of each set.
    ghost Value = { List (List ℕ) };

    ghost view = { λ s. s.sets.items };
}

impl Sets {
    /// Creates the list of these `sets`. It takes no memory.
    pub(crate) fn new(sets: Vec<Codes>) -> Self
        ensures { result ≡ sets.items }
    {
        Sets { sets }
    }

    /// Returns the sets as a slice.
    pub(crate) fn as_slice(&self) -> &[Codes]
        ensures { result.now ≡ self.now }
    {
        self.sets.as_slice()
    }

    /// Returns whether this list and `other` have the same sets in the same order.
    pub(crate) fn is_same(&self, other: &Sets) -> bool
        ensures { result ≡ same_sets self.now other.now }
    {
        self.sets == other.sets
    }
}

/// Returns the sets of the `groups`, in their order.
fn group_sets(alloc: Global, groups: &[Group]) -> Result<Sets, AllocError>
    ensures { IfOk result (λ v. v ≡ sets_of groups.now) }
{
    let mut sets = Vec::new(alloc);
    for group in groups {
        sets.push(group.codes.copy()?)?;
    }
    Ok(Sets::new(sets))
}

/// Returns the sets of each of the `groupings`, in turn.
pub(crate) fn listed_sets(alloc: Global, groupings: &[Grouping]) -> Result<Vec<Sets>, AllocError>
    ensures { IfOk result (λ v. v.items ≡ map sets_of (map (λ g. g.groups.items) groupings.now)) }
{
    let mut listed = Vec::new(alloc);
    for grouping in groupings {
        listed.push(group_sets(alloc, grouping.groups.as_slice())?)?;
    }
    Ok(listed)
}
