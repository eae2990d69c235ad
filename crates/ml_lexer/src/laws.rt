//! Laws of the tokens of a text, as contracts.

ghost use Rattle.std.specs.Prelude.{◌≡◌, ℕ, List, ◌∷◌, Some, true, ◌⊎◌};
ghost use Rattle.fx_base.specs.declared.refusal.Place.{Place};
ghost use Rattle.ml_lexer.specs.declared.token.TokenKind.{TokenKind};
ghost use Rattle.ml_lexer.specs.declared.form.Form.{Form};
ghost use Rattle.ml_lexer.specs.Bytes.{is_blank};
ghost use Rattle.ml_lexer.specs.Forms.{IsFront};
ghost use Rattle.ml_lexer.specs.Lexeme.{Lexeme};
ghost use Rattle.ml_lexer.specs.Lexes.{FaultsAt, IsLexeme, Lexes, kind_of};

/// A text has either one list of tokens or one first fault.
pub fn one_reading()
    ensures some { (bytes : List ℕ) → ((lexemes : List Lexeme) × Lexes bytes lexemes) ⊎ ((place : Place) × FaultsAt bytes place) }
    ensures tokens { (bytes : List ℕ) (some other : List Lexeme) → Lexes bytes some → Lexes bytes other → some ≡ other }
    ensures fault { (bytes : List ℕ) (some other : Place) → FaultsAt bytes some → FaultsAt bytes other → some ≡ other }
    ensures either { (bytes : List ℕ) (lexemes : List Lexeme) (place : Place) → Lexes bytes lexemes → FaultsAt bytes place → ⊥ }
{}

/// A token before a blank is one whatever follows: what is a token before some rest, and what has a
/// form and a kind. Only of a type variable does the rest matter, which may begin a character literal.
pub fn spaced_longest()
    ensures token { (kind : TokenKind) (text rest after : List ℕ) (blank : ℕ) → IsLexeme kind text rest → is_blank blank ≡ true → IsLexeme kind text (blank ∷ after) }
    ensures formed { (form : Form) (kind : TokenKind) (text rest after : List ℕ) (blank : ℕ) → IsFront form text rest → kind_of form text ≡ Some kind → is_blank blank ≡ true → IsLexeme kind text (blank ∷ after) }
{}
