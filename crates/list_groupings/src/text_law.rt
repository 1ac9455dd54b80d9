//! The law of the text of a list. The function does nothing; its contract is the law.

ghost use Rattle.list_groupings.specs.ListLaws.{ListingsAreOne};

/// States that two lists of all best groupings of a problem, each in order, have the same text, byte for byte. So the
/// same is printed, whichever texts of certificates list them and with whichever budgets.
pub fn listings_are_one()
    ensures { ListingsAreOne }
{}
