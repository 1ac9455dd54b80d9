//! Laws of texts of events: the function does nothing, and its contract is the law.

ghost use Rattle.board_report.specs.EventLaws.{EventsHaveTexts};

/// States which texts lists of events have. A text spells at most one list of events, and a list has at most one text.
/// Texts behind one another spell the events of all of them. A text has no fault exactly if it spells a list. A fault
/// is one of a line, never of memory or of a source.
pub fn events_have_texts()
    ensures { EventsHaveTexts }
{}
