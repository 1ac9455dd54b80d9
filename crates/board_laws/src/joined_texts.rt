//! The law of joined texts: the function does nothing, and its contract is the law.

ghost use Rattle.board_laws.specs.JoinedTexts.{JoinedTextsAreOne};

/// States that boards that hold the same join to the same text. Two lists of events may lead to boards of the same
/// round that hold the same splits and trees, each at the same states. Then both boards join or neither does, and the
/// texts of what they join are the same.
pub fn joined_texts_are_one()
    ensures { JoinedTextsAreOne }
{}
