//! The forms of lexemes.

/// The form of a lexeme.
#[derive(Clone, Copy, Debug, PartialEq, Eq)]
pub enum Form {
    /// A name or a keyword.
    Word,
    Number,
    Character,
    /// A type variable.
    Variable,
    Text,
    Symbol,
}
