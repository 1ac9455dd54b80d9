//! What a line of a certificate says, and what is wanted of the next line.

use certificate_data::{Allowance, Format};
use county_codes::{Codes, CountyCode, Group, Tolerance};

/// The line that opens a tree, or that is all of it.
#[derive(Clone, Copy, Debug, PartialEq, Eq)]
pub enum Opening {
    /// A branch: its county, and in a wide certificate its limit.
    Branch {
        /// The county.
        county: CountyCode,
        /// The greatest size of its groups, in a wide certificate.
        limit: Option<u16>,
    },
    /// A stuck leaf around a county.
    Stuck(CountyCode),
    /// A seats leaf.
    Seats,
    /// A bound leaf, with the number of the lines that follow.
    Bound(u16),
}

/// The version that a head names.
///
/// A certificate of version 2 names its tolerance on the second line. One of version 1 has no such line: its tolerance
/// is a twentieth.
#[derive(Clone, Copy, Debug, PartialEq, Eq)]
pub enum Version {
    /// Version 1.
    One,
    /// Version 2.
    Two,
}

/// What a line says.
#[derive(Debug, Drop)]
pub enum Item {
    /// The head of a certificate.
    Head(Format, Version),
    /// The tolerance that the certificate names.
    Within(Tolerance),
    /// The counties in their order.
    Order(Codes),
    /// The greatest size of a group of the target.
    Limit(u16),
    /// The number of groups of the target, or `None` if there is no target.
    Target(Option<u16>),
    /// A group of the target.
    Grouped(Group),
    /// A branch or a leaf.
    Opens(Opening),
    /// A group that is taken.
    Takes(Codes),
    /// The end of a branch's groups.
    Mark,
    /// An open leaf of a partial tree.
    Open,
    /// A line of a bound leaf.
    Allows(Allowance),
    /// The end of the certificate.
    End,
}

/// What is wanted next. A level stands for one more branch that may be opened inside those that are open.
#[derive(Clone, Copy, Debug, Default, PartialEq, Eq)]
pub enum Wanted {
    /// The head.
    #[default]
    Head,
    /// The line that names the tolerance.
    Tolerance(Format),
    /// The order.
    Order(Format),
    /// The limit.
    Limit,
    /// The target.
    Target,
    /// Groups of the target, with how many are wanted.
    Groups(u16),
    /// A tree, with the number of its levels.
    Tree(Format, u16),
    /// A group that is taken, or the mark, inside a branch. The number is how many levels the branch was opened with.
    Takes(Format, u16),
    /// A partial tree, with the number of its levels.
    Part(Format, u16),
    /// A group that is taken, or the mark, inside a branch of a partial tree. The number is how many levels the branch
    /// was opened with.
    PartTakes(Format, u16),
    /// Lines of a bound leaf, with how many are wanted.
    Allowances(u16),
    /// The end.
    End,
}
