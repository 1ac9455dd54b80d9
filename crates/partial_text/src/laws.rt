//! Laws of the text. The functions do nothing, and their contracts are the laws.

ghost use Rattle.std.specs.Prelude.{◌≡◌, ℕ, List, [], ◌++◌};
ghost use Rattle.certificate_data.specs.declared.format.Format.{Format};
ghost use Rattle.board_laws.specs.PartialTrees.{PartialTree};
ghost use Rattle.partial_text.specs.{Spelling.IsPartSpelling, TextLaws.PartsHaveTexts};

/// States that a partial tree has at most one text, and a text spells at most one partial tree, for a format and a
/// number of counties. No partial tree's text begins another's.
pub fn parts_have_one_text()
    ensures one_text { (format : Format) (counties : ℕ) (t u : List ℕ) (part : PartialTree)
        → IsPartSpelling format counties t part → IsPartSpelling format counties u part → t ≡ u }
    ensures one_value { (format : Format) (counties : ℕ) (t : List ℕ) (a b : PartialTree)
        → IsPartSpelling format counties t a → IsPartSpelling format counties t b → a ≡ b }
    ensures no_prefix { (format : Format) (counties : ℕ) (t rest : List ℕ) (a b : PartialTree)
        → IsPartSpelling format counties t a → IsPartSpelling format counties (t ++ rest) b → rest ≡ [] }
{}

/// States that a text spells each valid partial tree whose numbers are in range and whose branches each have an open
/// leaf. None of its branches is too deep.
pub fn parts_have_texts()
    ensures { PartsHaveTexts }
{}
