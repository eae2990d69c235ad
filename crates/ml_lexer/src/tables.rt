//! The keywords, and the symbols.

ghost use Rattle.std.specs.Prelude.{◌≡◌, ℕ, [], ◌∷◌};
ghost use Rattle.ml_lexer.specs.Tables.{double_symbols, keywords, kind_in, single_symbols, words_of_two, words_of_three, words_of_four, words_of_five, words_of_six, words_of_seven, words_of_more};

use crate::token::TokenKind;

fn word_of_two(word: &[u8]) -> Option<TokenKind>
    ensures { result ≡ kind_in words_of_two word.now }
{
    match word {
        _ if word == b"as".as_slice() => Some(TokenKind::As),
        _ if word == b"do".as_slice() => Some(TokenKind::Do),
        _ if word == b"if".as_slice() => Some(TokenKind::If),
        _ if word == b"in".as_slice() => Some(TokenKind::In),
        _ if word == b"of".as_slice() => Some(TokenKind::Of),
        _ if word == b"or".as_slice() => Some(TokenKind::Or),
        _ if word == b"to".as_slice() => Some(TokenKind::To),
        _ => None,
    }
}

fn word_of_three(word: &[u8]) -> Option<TokenKind>
    ensures { result ≡ kind_in words_of_three word.now }
{
    match word {
        _ if word == b"and".as_slice() => Some(TokenKind::And),
        _ if word == b"asr".as_slice() => Some(TokenKind::Asr),
        _ if word == b"end".as_slice() => Some(TokenKind::End),
        _ if word == b"for".as_slice() => Some(TokenKind::For),
        _ if word == b"fun".as_slice() => Some(TokenKind::Fun),
        _ if word == b"let".as_slice() => Some(TokenKind::Let),
        _ if word == b"lor".as_slice() => Some(TokenKind::Lor),
        _ if word == b"lsl".as_slice() => Some(TokenKind::Lsl),
        _ if word == b"lsr".as_slice() => Some(TokenKind::Lsr),
        _ if word == b"mod".as_slice() => Some(TokenKind::Mod),
        _ if word == b"new".as_slice() => Some(TokenKind::New),
        _ if word == b"rec".as_slice() => Some(TokenKind::Rec),
        _ if word == b"sig".as_slice() => Some(TokenKind::Sig),
        _ if word == b"try".as_slice() => Some(TokenKind::Try),
        _ if word == b"val".as_slice() => Some(TokenKind::Val),
        _ => None,
    }
}

fn word_of_four(word: &[u8]) -> Option<TokenKind>
    ensures { result ≡ kind_in words_of_four word.now }
{
    match word {
        _ if word == b"done".as_slice() => Some(TokenKind::Done),
        _ if word == b"else".as_slice() => Some(TokenKind::Else),
        _ if word == b"land".as_slice() => Some(TokenKind::Land),
        _ if word == b"lazy".as_slice() => Some(TokenKind::Lazy),
        _ if word == b"lxor".as_slice() => Some(TokenKind::Lxor),
        _ if word == b"open".as_slice() => Some(TokenKind::Open),
        _ if word == b"then".as_slice() => Some(TokenKind::Then),
        _ if word == b"true".as_slice() => Some(TokenKind::True),
        _ if word == b"type".as_slice() => Some(TokenKind::Type),
        _ if word == b"when".as_slice() => Some(TokenKind::When),
        _ if word == b"with".as_slice() => Some(TokenKind::With),
        _ => None,
    }
}

fn word_of_five(word: &[u8]) -> Option<TokenKind>
    ensures { result ≡ kind_in words_of_five word.now }
{
    match word {
        _ if word == b"begin".as_slice() => Some(TokenKind::Begin),
        _ if word == b"class".as_slice() => Some(TokenKind::Class),
        _ if word == b"false".as_slice() => Some(TokenKind::False),
        _ if word == b"match".as_slice() => Some(TokenKind::Match),
        _ if word == b"while".as_slice() => Some(TokenKind::While),
        _ => None,
    }
}

fn word_of_six(word: &[u8]) -> Option<TokenKind>
    ensures { result ≡ kind_in words_of_six word.now }
{
    match word {
        _ if word == b"assert".as_slice() => Some(TokenKind::Assert),
        _ if word == b"downto".as_slice() => Some(TokenKind::Downto),
        _ if word == b"effect".as_slice() => Some(TokenKind::Effect),
        _ if word == b"method".as_slice() => Some(TokenKind::Method),
        _ if word == b"module".as_slice() => Some(TokenKind::Module),
        _ if word == b"nonrec".as_slice() => Some(TokenKind::Nonrec),
        _ if word == b"object".as_slice() => Some(TokenKind::Object),
        _ if word == b"struct".as_slice() => Some(TokenKind::Struct),
        _ => None,
    }
}

fn word_of_seven(word: &[u8]) -> Option<TokenKind>
    ensures { result ≡ kind_in words_of_seven word.now }
{
    match word {
        _ if word == b"functor".as_slice() => Some(TokenKind::Functor),
        _ if word == b"include".as_slice() => Some(TokenKind::Include),
        _ if word == b"inherit".as_slice() => Some(TokenKind::Inherit),
        _ if word == b"mutable".as_slice() => Some(TokenKind::Mutable),
        _ if word == b"private".as_slice() => Some(TokenKind::Private),
        _ if word == b"virtual".as_slice() => Some(TokenKind::Virtual),
        _ => None,
    }
}

fn word_of_more(word: &[u8]) -> Option<TokenKind>
    ensures { result ≡ kind_in words_of_more word.now }
{
    match word {
        _ if word == b"constraint".as_slice() => Some(TokenKind::Constraint),
        _ if word == b"exception".as_slice() => Some(TokenKind::Exception),
        _ if word == b"external".as_slice() => Some(TokenKind::External),
        _ if word == b"function".as_slice() => Some(TokenKind::Function),
        _ if word == b"initializer".as_slice() => Some(TokenKind::Initializer),
        _ => None,
    }
}

/// The keyword that a word is.
pub fn keyword(word: &[u8]) -> Option<TokenKind>
    ensures { result ≡ kind_in keywords word.now }
{
    match word.len() {
        2 => word_of_two(word),
        3 => word_of_three(word),
        4 => word_of_four(word),
        5 => word_of_five(word),
        6 => word_of_six(word),
        7 => word_of_seven(word),
        8.. => word_of_more(word),
        _ => None,
    }
}

/// The symbol that a byte is.
pub fn single_symbol(byte: u8) -> Option<TokenKind>
    ensures { result ≡ kind_in single_symbols (byte ∷ []) }
{
    match byte {
        b'(' => Some(TokenKind::LeftParenthesis),
        b')' => Some(TokenKind::RightParenthesis),
        b'[' => Some(TokenKind::LeftBracket),
        b']' => Some(TokenKind::RightBracket),
        b'{' => Some(TokenKind::LeftBrace),
        b'}' => Some(TokenKind::RightBrace),
        b',' => Some(TokenKind::Comma),
        b';' => Some(TokenKind::Semicolon),
        b':' => Some(TokenKind::Colon),
        b'.' => Some(TokenKind::Dot),
        b'=' => Some(TokenKind::Equals),
        b'<' => Some(TokenKind::Less),
        b'>' => Some(TokenKind::Greater),
        b'+' => Some(TokenKind::Plus),
        b'-' => Some(TokenKind::Minus),
        b'*' => Some(TokenKind::Star),
        b'/' => Some(TokenKind::Slash),
        b'^' => Some(TokenKind::Caret),
        b'@' => Some(TokenKind::At),
        b'!' => Some(TokenKind::Bang),
        b'|' => Some(TokenKind::Bar),
        _ => None,
    }
}

/// The symbol that two bytes are.
pub fn double_symbol(first: u8, second: u8) -> Option<TokenKind>
    ensures { result ≡ kind_in double_symbols (first ∷ second ∷ []) }
{
    match (first, second) {
        (b'[', b'|') => Some(TokenKind::LeftArrayBracket),
        (b'|', b']') => Some(TokenKind::RightArrayBracket),
        (b';', b';') => Some(TokenKind::DoubleSemicolon),
        (b':', b':') => Some(TokenKind::DoubleColon),
        (b'-', b'>') => Some(TokenKind::RightArrow),
        (b'<', b'-') => Some(TokenKind::LeftArrow),
        (b':', b'=') => Some(TokenKind::ColonEquals),
        (b'<', b'>') => Some(TokenKind::LessGreater),
        (b'=', b'=') => Some(TokenKind::DoubleEquals),
        (b'!', b'=') => Some(TokenKind::BangEquals),
        (b'<', b'=') => Some(TokenKind::LessEquals),
        (b'>', b'=') => Some(TokenKind::GreaterEquals),
        (b'@', b'@') => Some(TokenKind::DoubleAt),
        (b'|', b'>') => Some(TokenKind::BarGreater),
        (b'&', b'&') => Some(TokenKind::DoubleAmpersand),
        (b'|', b'|') => Some(TokenKind::DoubleBar),
        (b'+', b'=') => Some(TokenKind::PlusEquals),
        _ => None,
    }
}
