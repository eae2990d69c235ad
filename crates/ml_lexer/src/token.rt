//! The tokens of a source text.

ghost use Rattle.std.specs.Prelude.{◌≡◌, ◌+◌, ◌<◌, ◌≤◌, ◌↔◌, List, [], ◌∷◌, IsTrue, All, length, drop, get_or};
ghost use Rattle.ml_lexer.specs.Lexeme.{lexed_text, LiesIn, texts};
ghost use Rattle.ml_lexer.specs.Seen.{seen};

use fx_base::Place;
use std::marker::Model;

/// What a token is: a name, a literal, a symbol or a keyword.
#[derive(Clone, Copy, Debug, PartialEq, Eq)]
pub enum TokenKind {
    /// A name that begins with a lower-case letter or `_`, and is no keyword and no lone `_`.
    LowerName,
    /// A name that begins with an upper-case letter.
    UpperName,
    /// `'` and a lower name.
    TypeVariable,
    /// An integer literal, in base 10, 16, 8 or 2.
    Integer,
    /// A character literal.
    Character,
    /// A string literal.
    Text,
    /// `(`
    LeftParenthesis,
    /// `)`
    RightParenthesis,
    /// `[`
    LeftBracket,
    /// `]`
    RightBracket,
    /// `{`
    LeftBrace,
    /// `}`
    RightBrace,
    /// `[|`
    LeftArrayBracket,
    /// `|]`
    RightArrayBracket,
    /// `,`
    Comma,
    /// `;`
    Semicolon,
    /// `;;`
    DoubleSemicolon,
    /// `:`
    Colon,
    /// `::`
    DoubleColon,
    /// `.`
    Dot,
    /// `->`
    RightArrow,
    /// `<-`
    LeftArrow,
    /// `:=`
    ColonEquals,
    /// `=`
    Equals,
    /// `<>`
    LessGreater,
    /// `==`
    DoubleEquals,
    /// `!=`
    BangEquals,
    /// `<`
    Less,
    /// `>`
    Greater,
    /// `<=`
    LessEquals,
    /// `>=`
    GreaterEquals,
    /// `+`
    Plus,
    /// `-`
    Minus,
    /// `*`
    Star,
    /// `/`
    Slash,
    /// `^`
    Caret,
    /// `@`
    At,
    /// `@@`
    DoubleAt,
    /// `|>`
    BarGreater,
    /// `&&`
    DoubleAmpersand,
    /// `||`
    DoubleBar,
    /// `!`
    Bang,
    /// `|`
    Bar,
    /// `+=`
    PlusEquals,
    /// `_`
    Underscore,
    /// `and`
    And,
    /// `as`
    As,
    /// `assert`
    Assert,
    /// `asr`
    Asr,
    /// `begin`
    Begin,
    /// `class`
    Class,
    /// `constraint`
    Constraint,
    /// `do`
    Do,
    /// `done`
    Done,
    /// `downto`
    Downto,
    /// `effect`
    Effect,
    /// `else`
    Else,
    /// `end`
    End,
    /// `exception`
    Exception,
    /// `external`
    External,
    /// `false`
    False,
    /// `for`
    For,
    /// `fun`
    Fun,
    /// `function`
    Function,
    /// `functor`
    Functor,
    /// `if`
    If,
    /// `in`
    In,
    /// `include`
    Include,
    /// `inherit`
    Inherit,
    /// `initializer`
    Initializer,
    /// `land`
    Land,
    /// `lazy`
    Lazy,
    /// `let`
    Let,
    /// `lor`
    Lor,
    /// `lsl`
    Lsl,
    /// `lsr`
    Lsr,
    /// `lxor`
    Lxor,
    /// `match`
    Match,
    /// `method`
    Method,
    /// `mod`
    Mod,
    /// `module`
    Module,
    /// `mutable`
    Mutable,
    /// `new`
    New,
    /// `nonrec`
    Nonrec,
    /// `object`
    Object,
    /// `of`
    Of,
    /// `open`
    Open,
    /// `or`
    Or,
    /// `private`
    Private,
    /// `rec`
    Rec,
    /// `sig`
    Sig,
    /// `struct`
    Struct,
    /// `then`
    Then,
    /// `to`
    To,
    /// `true`
    True,
    /// `try`
    Try,
    /// `type`
    Type,
    /// `val`
    Val,
    /// `virtual`
    Virtual,
    /// `when`
    When,
    /// `while`
    While,
    /// `with`
    With,
}

/// A token: its kind, the bytes of the text from `from` to `to`, and the place of the byte `from`.
#[derive(Clone, Copy, Debug, PartialEq, Eq)]
pub struct Token {
    pub kind: TokenKind,
    pub from: u32,
    pub to: u32,
    pub place: Place,
}

/// A source text, its tokens in the order of the text, and the place behind its last byte.
#[derive(Debug, Drop)]
pub struct Tokens {
    source: Vec<u8>,
    items: Vec<Token>,
    end: Place,
}

impl Model for Tokens {
    ghost use Rattle.std.specs.Prelude.{All};
    ghost use Rattle.ml_lexer.specs.Lexeme.{LexedText, lexed_text, LiesIn};

    ghost Value = { LexedText };

    ghost view = { λ a. lexed_text a.source.items a.items.items a.end };

    ghost invariant = { λ a. All (LiesIn a.source.items) a.items.items };
}

/// What a token says: its kind, its bytes and the place of the first one.
#[derive(Clone, Copy, Debug)]
pub struct TokenView<'a> {
    pub kind: TokenKind,
    pub text: &'a [u8],
    pub place: Place,
}

impl Tokens {
    // The tokens of a source text, each of which spans bytes of it.
    pub(crate) fn new(source: Vec<u8>, items: Vec<Token>, end: Place) -> Tokens
        requires { All (LiesIn source.items) items.items }
        ensures { result ≡ lexed_text source.items items.items end }
    {
        Tokens { source, items, end }
    }

    /// How many tokens there are.
    pub fn len(&self) -> usize
        ensures { result ≡ length self.now.lexemes }
    {
        self.items.len()
    }

    /// Whether there is no token.
    pub fn is_empty(&self) -> bool
        ensures { IsTrue result ↔ (self.now.lexemes ≡ []) }
    {
        self.items.is_empty()
    }

    /// The token of a number, from 0.
    pub fn view(&self, i: usize) -> TokenView<'_>
        requires { i < length self.now.lexemes }
        ensures { drop i self.now.lexemes ≡ seen result ∷ drop (i + 1) self.now.lexemes }
    {
        let token = self.items[i];
        TokenView {
            kind: token.kind,
            text: &self.source[token.from as usize..token.to as usize],
            place: token.place,
        }
    }

    /// The place behind the last byte of the text.
    pub fn end(&self) -> Place
        ensures { result ≡ self.now.ending }
    {
        self.end
    }
}

/// The bytes of the token of a number, from 0.
pub fn token_text(tokens: &Tokens, i: usize) -> &[u8]
    requires { i < length tokens.now.lexemes }
    ensures { result.now ≡ get_or (texts tokens.now.lexemes) i [] }
{
    tokens.view(i).text
}
