// What always holds of the definitions that the contracts cite.
ghost use Rattle.solid_lang.specs.TokenReasons.{TokenReasonsAreLowest};
ghost use Rattle.solid_lang.specs.JudgingLaws.{EachTextIsJudged, NoneIsJudgedAndRefused, OneCount, OneFault};
ghost use Rattle.solid_lang.specs.ReadingLaws.{ReadingIsExact, OneReading, EachTextIsAnswered, NoneIsReadAndRefused, OneRefusal};
ghost use Rattle.solid_lang.specs.TranslationLaws.{RefusalsStand, SolidsAreTranslated, TranslationsKeepValues};

/// A text is read as the one solid that its tokens say, exactly where each token is taken for what
/// is wanted and nothing is wanted after them, or else it is no solid on the one line and for the
/// one reason where that fails.
pub fn solid_reading_is_exact()
    ensures reads { ReadingIsExact }
    ensures one_reading { OneReading }
    ensures answered { EachTextIsAnswered }
    ensures never_both { NoneIsReadAndRefused }
    ensures one_refusal { OneRefusal }
{}

/// A token is refused for the lowest reason that holds of it where some are wanted, and taken where
/// none does.
pub fn token_reasons_are_lowest()
    ensures { TokenReasonsAreLowest }
{}

/// A text says a solid of one number of clauses, at most 65,535, or else it is refused on one line
/// for one reason.
pub fn solid_judging_is_exact()
    ensures judged { EachTextIsJudged }
    ensures never_both { NoneIsJudgedAndRefused }
    ensures one_count { OneCount }
    ensures one_fault { OneFault }
{}

/// A text that says a solid of at most 65,535 clauses is translated to the text of these, and one that
/// is refused to its refusal. What a text is translated to is read as a model that has the value of the
/// solid at every point.
pub fn translation_is_exact()
    ensures solids { SolidsAreTranslated }
    ensures refusals { RefusalsStand }
    ensures values { TranslationsKeepValues }
{}
