// What may be wanted of a token.

/// What is wanted of the next token of a solid's text.
#[derive(Clone, Copy, Debug, Default, PartialEq, Eq)]
pub(crate) enum Want {
    /// A numeral.
    #[default]
    Numeral,
    /// A numeral above 0.
    Size,
    /// The word of a form within so many others, and all that this form wants in turn.
    Whole(u16),
}
