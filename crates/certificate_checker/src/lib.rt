//! A checker of certificates. It gives a verdict on any text, plain or wide, and on any tree.
//!
//! ```
//! match check(alloc, &problem, text, 10_000_000)? {
//!     Verdict::Best(grouping) => ..,      // lawful, and no lawful grouping is greater
//!     Verdict::Impossible => ..,          // no grouping is lawful
//!     Verdict::No(fault, line) => ..,     // the text is no certificate of the problem
//!     Verdict::Budget => ..,              // the budget is below the text's cost
//! }
//! ```
//!
//! `checking` gives the verdict on a text, and `tree_checking` that on a tree. `certificate` judges order, limit and
//! target, whose lines `rounds` reads. `tree` reads the lines of a tree one after the other and judges each at its
//! state: branches with their takes (`branches`), and leaves (`leaves`). `feed` counts lines and steps, `forms` takes
//! lines of one form, and `input` is what they are judged by.
//!
//! In a wide round the checker keeps what it knows of the groups at a state from line to line (`known`). `known_at`,
//! `closed_known`, `raised_known` and `knowing_branch` let another crate keep it, and `check_tree_knowing` goes on from
//! it.
//!
//! The checker makes no value of a tree. Any form of sets of places serves, and any source of items: `check_from` pulls
//! the text line by line.
//!
//! A law (`specs/CertificateAnswers.antt`) says that the checker never says No to the text of a certificate. It answers
//! what the certificate shows, or that the budget is too small.
#![tactic(auto)]

mod branches;
mod certificate;
mod checking;
mod fault;
mod feed;
mod forms;
mod input;
mod known;
mod laws;
mod leaves;
mod rounds;
mod tree;
mod tree_checking;
mod verdict;

pub use certificate::wanted_counts;
pub use checking::{check, check_from, check_from_keeping, check_from_over, check_over};
pub use fault::CheckStop;
pub use input::CheckInput;
pub use known::{closed_known, knowing_branch, known_at, raised_known};
pub use laws::checker_agrees;
pub use state_judge::CheckFault;
pub use tree_checking::{check_tree, check_tree_knowing};
pub use verdict::{TreeVerdict, Verdict};
