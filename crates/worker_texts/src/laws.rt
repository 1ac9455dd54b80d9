//! Laws of the texts that are told to a worker: the function does nothing, and its contract is the law.

ghost use Rattle.std.specs.Prelude.{◌≡◌};
ghost use Rattle.worker_texts.specs.{RoundText.text_of_round, Examples.{first_round, round_text}};
ghost use Rattle.worker_texts.specs.Laws.{WorkerTextsAreRead};

/// States what is told at the front of a text, and which text an example has. What is spelled is told, whatever stands
/// behind it. At most one such text stands at the front. A fault is one of a line.
pub fn worker_texts_are_read()
    ensures law { WorkerTextsAreRead }
    ensures example { text_of_round first_round ≡ round_text }
{}
