//! Laws of proofs in pieces: the functions do nothing, and their contracts are the laws.

ghost use Rattle.board_laws.specs.Laws.{SkeletonsJoin, PiecesStand, BoardsKeep, SameIsJoined};

/// States that a skeleton in which no piece waits joins to a proof tree, and that one in which a piece waits joins to
/// none.
pub fn skeletons_join()
    ensures { SkeletonsJoin }
{}

/// States that each piece stands for one state, which is a state of the round.
pub fn pieces_stand()
    ensures { PiecesStand }
{}

/// States that what is joined is a certificate, after any list of events. Until a new round a piece keeps its tree and
/// stays split. Late, repeated and false events change nothing. The target never becomes lesser.
pub fn boards_keep()
    ensures { BoardsKeep }
{}

/// States that two boards that hold the same splits and trees, each at the same states, join to the same tree. Neither
/// the order in which events came nor the numbers of the pieces matter.
pub fn same_is_joined()
    ensures { SameIsJoined }
{}
