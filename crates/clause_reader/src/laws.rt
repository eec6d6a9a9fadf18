// What always holds of the definitions that the contracts cite.
ghost use Rattle.clause_reader.specs.FirstLines.{TextsBeginWithLines};
ghost use Rattle.clause_reader.specs.GivenLines.{GivenLinesStand};
ghost use Rattle.clause_reader.specs.LineLaws.{LinesAreExact, TokensAreExact};
ghost use Rattle.clause_reader.specs.ReadModels.{ReadTextsAreModels, SaidFormsAreForms, TokensMayName};
ghost use Rattle.clause_reader.specs.ReadingLaws.{ReadingIsExact, RefusingIsExact, EachTextIsAnswered, NoneIsReadAndRefused, OneReading, OneRefusal, MemoryIsNoReason, EachLineAddsOne};
ghost use Rattle.clause_reader.specs.Reasons.{LineReasonsAreLowest};
ghost use Rattle.clause_reader.specs.WritingLaws.{WrittenModelsAreRead, WrittenModelsAreSaid};

/// A text is read as the one list of clauses that its lines say, each after those before it, or
/// else it is refused on the one line where that fails, which is 0 where no line says a clause, for
/// the one reason that comes first there.
pub fn reading_is_exact()
    ensures reads { ReadingIsExact }
    ensures refuses { RefusingIsExact }
    ensures answered { EachTextIsAnswered }
    ensures never_both { NoneIsReadAndRefused }
    ensures one_reading { OneReading }
    ensures one_refusal { OneRefusal }
    ensures never_memory { MemoryIsNoReason }
    ensures adds_one { EachLineAddsOne }
{}

/// The clauses of a text that is read are a model. What tokens say as a form is one, and a token of a text is
/// a name unless it begins with `#`.
pub fn read_texts_are_models()
    ensures models { ReadTextsAreModels }
    ensures forms { SaidFormsAreForms }
    ensures names { TokensMayName }
{}

/// A clause line is refused for the lowest reason that holds in it, and says a clause where none does.
pub fn line_reasons_are_lowest()
    ensures { LineReasonsAreLowest }
{}

/// A text splits into the one list of lines that hold no line feed and that, each followed by one,
/// are the text, but for a line feed that the last line may lack. A line splits into the one list
/// of its tokens, the longest runs of bytes that are no blanks, in order, with blanks alone between
/// and around them.
pub fn lines_and_tokens_are_exact()
    ensures lines { LinesAreExact }
    ensures tokens { TokensAreExact }
{}

/// The lines of a text that is not empty are the line with which it begins and the lines after it,
/// which are fewer bytes.
pub fn texts_begin_with_lines()
    ensures { TextsBeginWithLines }
{}

/// Each of the lines that `Lines` gives is the line of its number: those that are given before it
/// stand before it, and the others after it.
pub fn given_lines_stand()
    ensures { GivenLinesStand }
{}

/// The text of a model says the very model, and is read as it: the same clauses, names and
/// constants.
pub fn written_models_are_read()
    ensures read { WrittenModelsAreRead }
    ensures said { WrittenModelsAreSaid }
{}
