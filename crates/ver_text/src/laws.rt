//! Laws of tokens. Their functions do nothing: each one's contract is the law, which a proof may cite.

ghost use Rattle.ver_text.specs.Laws.{StandInOrder};
ghost use Rattle.ver_text.specs.Written.{WordsAreTokens, EscapedNamesAreTokens, DigitsAreTokens, MarksAreTokens, BlanksArePassed};

/// The tokens of a text stand in it one after another, and none is empty.
pub fn tokens_stand_in_order()
    ensures { StandInOrder }
{}

/// What is written into a text is read again, whatever stands before it and after it: a word, an escaped name before a
/// blank, digits, and each byte that is a token.
pub fn written_tokens_are_read_again()
    ensures words { WordsAreTokens }
    ensures escaped { EscapedNamesAreTokens }
    ensures digits { DigitsAreTokens }
    ensures marks { MarksAreTokens }
    ensures blanks { BlanksArePassed }
{}
