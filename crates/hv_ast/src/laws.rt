//! What holds of the tokens of every text. The functions do nothing: each contract is a law.

ghost use Rattle.hv_ast.specs.Layout.{OneOrTheOther, PlacesRise, NothingBetween};

/// A text has tokens or a fault, and never both.
pub fn tokens_or_fault()
    ensures { OneOrTheOther }
{}

/// The places of a text's tokens rise.
pub fn places_rise()
    ensures { PlacesRise }
{}

/// Nothing but spaces and comments stands before, between and behind the tokens.
pub fn nothing_between()
    ensures { NothingBetween }
{}
