//! Laws of pieces, of turning and of exchanging. The calls do nothing; their contracts are the laws.

ghost use Rattle.dm_tokens.specs.Laws.{TextHasPieces, TextHasOnePieces, TurningHasOneAnswer, TextTurnsUnlessNewIsThere, TextWithNewTurnsToNothing, TurningTurnsBack, TurningKeepsPieces, SameTokenChangesNothing, TurnedLinesAreLines, LinesTurnToAsMany, TurningLinesHasOneAnswer, TurningLinesTurnsBack, TurningsPassEachOther, ExchangingTurnsBack, ExchangingHasNoOrder, TurningExchanges, ExchangesPassEachOther};

/// Each text has pieces.
pub fn text_has_pieces()
    ensures { TextHasPieces }
{}

/// A text is cut into pieces in one way only.
pub fn text_has_one_pieces()
    ensures { TextHasOnePieces }
{}

/// A text turns to at most one other.
pub fn turning_has_one_answer()
    ensures { TurningHasOneAnswer }
{}

/// A text turns to one, unless the new token stands in it and isn't the old one.
pub fn text_turns_unless_new_is_there()
    ensures { TextTurnsUnlessNewIsThere }
{}

/// A text in which the new token stands turns to nothing, unless it is the old one.
pub fn text_with_new_turns_to_nothing()
    ensures { TextWithNewTurnsToNothing }
{}

/// A text turns to another just where that turns back.
pub fn turning_turns_back()
    ensures { TurningTurnsBack }
{}

/// The pieces of what a text turns to are its pieces, turned one by one.
pub fn turning_keeps_pieces()
    ensures { TurningKeepsPieces }
{}

/// A token that becomes itself changes nothing.
pub fn same_token_changes_nothing()
    ensures { SameTokenChangesNothing }
{}

/// A line turns to a line, if the newline isn't in the set.
pub fn turned_lines_are_lines()
    ensures { TurnedLinesAreLines }
{}

/// Lines turn to as many lines.
pub fn lines_turn_to_as_many()
    ensures { LinesTurnToAsMany }
{}

/// Lines turn to at most one list of lines.
pub fn turning_lines_has_one_answer()
    ensures { TurningLinesHasOneAnswer }
{}

/// Lines turn to others just where these turn back.
pub fn turning_lines_turns_back()
    ensures { TurningLinesTurnsBack }
{}

/// If one token becomes another, and then a third becomes a fourth, the other order ends alike, unless one of the last two is one of
/// the first two.
pub fn turnings_pass_each_other()
    ensures { TurningsPassEachOther }
{}

/// Exchanging two tokens is its own inverse.
pub fn exchanging_turns_back()
    ensures { ExchangingTurnsBack }
{}

/// Exchanging two tokens is the same whichever of the two comes first.
pub fn exchanging_has_no_order()
    ensures { ExchangingHasNoOrder }
{}

/// What a text turns to is the text with the two tokens exchanged.
pub fn turning_exchanges()
    ensures { TurningExchanges }
{}

/// Exchanging two tokens and exchanging two others come to the same in both orders.
pub fn exchanges_pass_each_other()
    ensures { ExchangesPassEachOther }
{}
