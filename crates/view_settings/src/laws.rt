// What always holds of the definitions that the contracts cite.
ghost use Rattle.view_settings.specs.Grammar.{GivenSettingsAreExact, JobsHold, RefusedWordIsExact};
ghost use Rattle.view_settings.specs.Reasons.{WordReasonsAreLowest};

/// The settings of words are those that the words give, one by one, each after those before it. The
/// word that is refused is the first that gives none.
pub fn words_are_exact()
    ensures given { GivenSettingsAreExact }
    ensures refused { RefusedWordIsExact }
{}

/// The view of a job that words ask for keeps what every view keeps, and may be drawn as the job
/// says.
pub fn jobs_hold()
    ensures { JobsHold }
{}

/// A word is refused for the lowest reason that holds in it, and gives a setting where none does.
pub fn word_reasons_are_lowest()
    ensures { WordReasonsAreLowest }
{}
