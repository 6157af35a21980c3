//! What holds of every text. The function does nothing: its contract is a law.

ghost use Rattle.hv_reading.specs.Laws.{RunsAndIsNotRefused};

/// A text that runs is refused for nothing.
pub fn runs_and_is_not_refused()
    ensures law { RunsAndIsNotRefused }
{}
