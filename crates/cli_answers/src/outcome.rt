//! What a run came to, as a value beside its text and its status. It is for whoever explains the run to a person; no
//! clause speaks of it.

use crate::fault_text::FaultText;
use crate::file_fault::{FileFault, FileOption};
use baf_auditor::Findings;
use cli_file_stores::FileStoreFault;
use cli_words::WordsEnd;
use county_codes::Grouping;
use county_problem::{Counts, GroupingFault, Problem, ProblemFault};
use share_board::BoardFault;
use state_judge::CheckFault;

/// Why a certificate doesn't show that a lawful grouping is best.
#[derive(Drop)]
pub enum BestNotShown {
    /// The text is no certificate: its first fault, and the line, which counts from 1.
    NoCertificate(CheckFault, u64),
    /// The text shows that no grouping is lawful. There is a lawful one, so this can't be.
    Impossible,
    /// The budget was too small.
    Budget,
    /// The certificate's grouping is best and has greater counts. The counts of the judged grouping stand first, and
    /// then those of the certificate's grouping.
    Lesser(Counts, Counts),
}

/// What a run came to.
#[derive(Drop)]
pub enum RunOutcome {
    /// The answer is the size table, a lawful grouping without a certificate, a grouping that is best, all best
    /// groupings, or an event that a piece gave. For a board, it is that the board joined its certificate. For an
    /// audit, it is that nothing was found.
    Done,
    /// The words are no command, or they ask for help or the version.
    Words(WordsEnd),
    /// The case has more bytes than a case may have.
    CaseTooLarge,
    /// The case could not be read.
    CaseUnread,
    /// Line 1 of the case or the name of a file in it isn't UTF-8.
    CaseNotText,
    /// The file of an option could not be had. The path is that of the words. It is `None` if memory for it was
    /// refused.
    NotLoaded(FileOption, FileStoreFault, Option<String>),
    /// The file of an option is refused. The text is what is known of it.
    Refused(FileOption, FileFault, FaultText),
    /// The problem is refused.
    Problem(ProblemFault),
    /// The grouping isn't lawful.
    Unlawful(GroupingFault),
    /// The grouping is lawful, but the certificate doesn't show that it is best. The value says why.
    NotShownBest(BestNotShown),
    /// The audit found something.
    Found(Findings),
    /// The text is no certificate of the problem: its first fault, and the line of the fault, which counts from 1.
    NoCertificate(CheckFault, u64),
    /// The budget of a check was too small.
    Budget,
    /// No grouping of the problem is lawful.
    Impossible,
    /// The steps of the search ran out.
    Open,
    /// The target of a certificate is best, but the certificate doesn't show which other groupings are. The number is
    /// the line of the first leaf at which it doesn't, counted from 1.
    ListOpen(u64),
    /// All best groupings are listed, this number of them, and none has the sets of the grouping that was asked for.
    Unlisted(usize),
    /// This number of groupings is best, and none of them has the number that was to be stored.
    NoSuchGrouping(usize),
    /// There is no board for the grouping and its round.
    Board(BoardFault),
    /// This number of pieces of the board is still waiting.
    PiecesLeft(usize),
    /// The steps of a piece ran out. The flag tells whether the answer gives a part of its proof.
    PieceOpen(bool),
    /// No piece of the number waits on the board.
    NoSuchPiece,
    /// The file of an option could not be stored. The path is as at `NotLoaded`.
    NotStored(FileOption, FileStoreFault, Option<String>),
    /// Memory was refused.
    Memory,
}

/// What a command judged, for whoever explains the outcome to a person. No clause speaks of it.
#[derive(Drop)]
pub struct Subject {
    /// The problem of the files.
    pub problem: Problem,
    /// The grouping that was judged, or against which a plan was audited.
    pub grouping: Option<Grouping>,
    /// What is known of the text of the certificate.
    pub certificate: Option<FaultText>,
}
