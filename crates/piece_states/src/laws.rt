//! Laws of what is told. Each function does nothing; its contract is the law.

ghost use Rattle.std.specs.Prelude.{◌≡◌};
ghost use Rattle.piece_states.specs.{Text.text_of_piece, Examples.{told_path, path_text}};
ghost use Rattle.piece_states.specs.Laws.{StatesAreTold, StatesHaveTexts, BranchesKeepTold};

/// States that a state of a round is the one that is told of it.
pub fn states_are_told()
    ensures { StatesAreTold }
{}

/// States that what is told of a state of a round has a text, which `front_open_piece` reads, and which text an example
/// has.
pub fn states_have_texts()
    ensures law { StatesHaveTexts }
    ensures example { text_of_piece 1 2 told_path ≡ path_text }
{}

/// States that what is told of each state to which branches lead is a state of the round, as `told_state` asks.
pub fn branches_keep_told()
    ensures { BranchesKeepTold }
{}
