//! Laws of listings. The functions do nothing; their contracts are the laws.

ghost use Rattle.list_groupings.specs.Laws.{GapsTell, ListsAgree};

/// States that two lists of all best groupings of a problem, each in order, have the same sets in the same order. So
/// what is printed of the sets alone is the same, whichever certificate the list was read from.
pub fn lists_agree()
    ensures { ListsAgree }
{}

/// States that a complete tree has no gap, and that a tree has at most one first gap. It can't be that a tree without a
/// gap isn't complete.
pub fn gaps_tell()
    ensures { GapsTell }
{}
