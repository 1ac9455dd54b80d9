//! Laws of the text. The functions do nothing, and their contracts are the laws.

ghost use Rattle.std.specs.Prelude.{◌≡◌, ℕ, List, [], ◌++◌, Ok};
ghost use Rattle.field_lines.specs.RawPieces.{RawLine, raw_lines_from};
ghost use Rattle.certificate_data.specs.{Tree.Tree, declared.format.Format.Format, TreeValue.Certificate};
ghost use Rattle.certificate_lines.specs.{declared.item.Item.Item, declared.item.Wanted.Wanted, Items.items_from};
ghost use Rattle.certificate_lines.specs.{ItemReadings.{reading_from, whole}, Fitting.AllFit, Spelling.text_of_items};
ghost use Rattle.certificate_text.specs.{LineLaws.TreesSpell, Spelling.{IsSpelling, IsTreeSpelling}};
ghost use Rattle.certificate_text.specs.TextLaws.{ProofTreesHaveTexts};

/// States that items and texts agree. Items that fit are read from their text. Items that are read fit, and the text
/// from which they are read is theirs.
pub fn items_and_texts_agree()
    ensures back { (wanted : List Wanted) (n : ℕ) (items : List Item) → AllFit wanted items
        → items_from wanted n (raw_lines_from n (text_of_items items)) ≡ Ok items }
    ensures only { (wanted : List Wanted) (n : ℕ) (text : List ℕ) (items : List Item)
        → items_from wanted n (raw_lines_from n text) ≡ Ok items → AllFit wanted items }
    ensures text { (wanted : List Wanted) (n : ℕ) (text : List ℕ) (items : List Item)
        → items_from wanted n (raw_lines_from n text) ≡ Ok items → text ≡ text_of_items items }
{}

/// States that the items of a text are those that come one at a time, if no fault ends them.
pub fn items_come_in_turn()
    ensures { (wanted : List Wanted) (n : ℕ) (lines : List RawLine)
        → whole (reading_from wanted n lines).items (reading_from wanted n lines).fault ≡ items_from wanted n lines }
{}

/// States that a certificate has at most one text, and a text spells at most one certificate. No certificate's text
/// begins another's.
pub fn certificates_have_one_text()
    ensures one_text { (t u : List ℕ) (c : Certificate) → IsSpelling t c → IsSpelling u c → t ≡ u }
    ensures one_value { (t : List ℕ) (c d : Certificate) → IsSpelling t c → IsSpelling t d → c ≡ d }
    ensures no_prefix { (t rest : List ℕ) (c d : Certificate) → IsSpelling t c → IsSpelling (t ++ rest) d → rest ≡ [] }
{}

/// States that a tree has at most one text, and a text spells at most one tree, for a format and a number of
/// counties. No tree's text begins another's.
pub fn trees_have_one_text()
    ensures one_text { (format : Format) (counties : ℕ) (t u : List ℕ) (tree : Tree)
        → IsTreeSpelling format counties t tree → IsTreeSpelling format counties u tree → t ≡ u }
    ensures one_value { (format : Format) (counties : ℕ) (t : List ℕ) (a b : Tree)
        → IsTreeSpelling format counties t a → IsTreeSpelling format counties t b → a ≡ b }
    ensures no_prefix { (format : Format) (counties : ℕ) (t rest : List ℕ) (a b : Tree)
        → IsTreeSpelling format counties t a → IsTreeSpelling format counties (t ++ rest) b → rest ≡ [] }
{}

/// States that the lines of a tree spell it if they meet no fault, and that nothing spells it if they meet one.
pub fn trees_spell()
    ensures { TreesSpell }
{}

/// States that a text spells each proof tree whose numbers are in range, and each certificate whose numbers are. None
/// of them has a branch that is too deep or a line of weights that is too long.
pub fn proof_trees_have_texts()
    ensures { ProofTreesHaveTexts }
{}
