//! Laws of the verdicts of texts: the functions do nothing, and their contracts are the laws.

ghost use Rattle.checker_laws.specs.TextLaws.{TextsSpell, TextVerdictsShow, TextCostsAreOne};

/// States that a text spells one certificate, whose items are the text's, or has a fault. The text has at least one LF
/// for each item.
pub fn texts_spell()
    ensures { TextsSpell }
{}

/// States that a text has at most one verdict. If the text spells a certificate that holds, the verdict is Best or
/// Impossible, and the certificate shows it.
pub fn text_verdicts_show()
    ensures { TextVerdictsShow }
{}

/// States that a text has one cost.
pub fn text_costs_are_one()
    ensures { TextCostsAreOne }
{}
