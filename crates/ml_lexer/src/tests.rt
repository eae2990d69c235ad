//! The tokens, faults and values of worked texts.

use crate::{TokenKind as Kind, character_byte, integer_value, lex, string_bytes, token_text};
use fx_base::{Place, Refusal};
use std::alloc::Global;
use std::test::Fail;

// A text, and its tokens: the kind and the bytes of each.
struct Lexed {
    text: &'static [u8],
    tokens: &'static [(Kind, &'static [u8])],
}

const LEXED: &[Lexed] = &[
    Lexed {
        text: b"",
        tokens: &[],
    },
    Lexed {
        text: b"let x'=_a+_ A_1 letx __ (**)",
        tokens: &[
            (Kind::Let, b"let"),
            (Kind::LowerName, b"x'"),
            (Kind::Equals, b"="),
            (Kind::LowerName, b"_a"),
            (Kind::Plus, b"+"),
            (Kind::Underscore, b"_"),
            (Kind::UpperName, b"A_1"),
            (Kind::LowerName, b"letx"),
            (Kind::LowerName, b"__"),
        ],
    },
    Lexed {
        text: b"'a' 'ab 'a'b '\"' '\\'' '\\255' '\\x4F' '__",
        tokens: &[
            (Kind::Character, b"'a'"),
            (Kind::TypeVariable, b"'ab"),
            (Kind::Character, b"'a'"),
            (Kind::LowerName, b"b"),
            (Kind::Character, b"'\"'"),
            (Kind::Character, b"'\\''"),
            (Kind::Character, b"'\\255'"),
            (Kind::Character, b"'\\x4F'"),
            (Kind::TypeVariable, b"'__"),
        ],
    },
    Lexed {
        text: b"0x 0x_1 0xF_f 0b12 0o17_ 1_000 4611686018427387904 0x4000000000000000",
        tokens: &[
            (Kind::Integer, b"0"),
            (Kind::LowerName, b"x"),
            (Kind::Integer, b"0"),
            (Kind::LowerName, b"x_1"),
            (Kind::Integer, b"0xF_f"),
            (Kind::Integer, b"0b1"),
            (Kind::Integer, b"2"),
            (Kind::Integer, b"0o17_"),
            (Kind::Integer, b"1_000"),
            (Kind::Integer, b"4611686018427387904"),
            (Kind::Integer, b"0x4000000000000000"),
        ],
    },
    Lexed {
        text: b"=== :::= [||] |]> <-> !=! &&",
        tokens: &[
            (Kind::DoubleEquals, b"=="),
            (Kind::Equals, b"="),
            (Kind::DoubleColon, b"::"),
            (Kind::ColonEquals, b":="),
            (Kind::LeftArrayBracket, b"[|"),
            (Kind::RightArrayBracket, b"|]"),
            (Kind::RightArrayBracket, b"|]"),
            (Kind::Greater, b">"),
            (Kind::LeftArrow, b"<-"),
            (Kind::Greater, b">"),
            (Kind::BangEquals, b"!="),
            (Kind::Bang, b"!"),
            (Kind::DoubleAmpersand, b"&&"),
        ],
    },
    Lexed {
        text: b"a(* (* *) \" *) \\\" \" '\"' ' \xc3\xa9 *)b \"\xc3\xa9\\\n \t(*\"",
        tokens: &[
            (Kind::LowerName, b"a"),
            (Kind::LowerName, b"b"),
            (Kind::Text, b"\"\xc3\xa9\\\n \t(*\""),
        ],
    },
];

// A text without tokens, and the line and column of its first fault.
struct Faulty {
    text: &'static [u8],
    line: u32,
    column: u32,
}

const FAULTY: &[Faulty] = &[
    Faulty {
        text: b"a # b",
        line: 1,
        column: 3,
    },
    Faulty {
        text: b"a & b",
        line: 1,
        column: 3,
    },
    Faulty {
        text: b"\xc3\xa9",
        line: 1,
        column: 1,
    },
    Faulty {
        text: b"a\n (*) b",
        line: 2,
        column: 2,
    },
    Faulty {
        text: b"x (* (* *) \"",
        line: 1,
        column: 3,
    },
    Faulty {
        text: b"(* (* \" *) *)",
        line: 1,
        column: 1,
    },
    Faulty {
        text: b"\"a\" \"b",
        line: 1,
        column: 5,
    },
    Faulty {
        text: b"\"\\q\"",
        line: 1,
        column: 1,
    },
    Faulty {
        text: b"\r\n\"\\256\"",
        line: 2,
        column: 1,
    },
    Faulty {
        text: b"'\\256'",
        line: 1,
        column: 1,
    },
    Faulty {
        text: b"'\n'",
        line: 1,
        column: 1,
    },
    Faulty {
        text: b"x 'and",
        line: 1,
        column: 3,
    },
    Faulty {
        text: b"'_ ",
        line: 1,
        column: 1,
    },
    Faulty {
        text: b"1 4611686018427387905x",
        line: 1,
        column: 3,
    },
    Faulty {
        text: b"0x4000000000000001",
        line: 1,
        column: 1,
    },
];

fn place_of(alloc: Global, text: &[u8]) -> Option<Place> {
    if text.len() > 16_777_216 {
        return None;
    }
    match lex(alloc, text) {
        Err(Refusal::Syntax(place)) => Some(place),
        _ => None,
    }
}

#[test]
fn lexes_worked_texts(rt: HostRuntime) -> Result<(), Fail> {
    for case in LEXED {
        assert!(rt; case.text.len() <= 100);
        let tokens = lex(rt.alloc(), case.text)?;
        assert_eq!(rt; tokens.len(), case.tokens.len(), "of {:?}", case.text);
        assert_eq!(rt; tokens.is_empty(), case.tokens.is_empty());
        for (i, (kind, text)) in case.tokens.iter().enumerate() {
            assert!(rt; i < tokens.len());
            assert_eq!(rt; tokens.view(i).kind, *kind, "of {text:?}");
            assert_eq!(rt; token_text(&tokens, i), *text);
        }
    }
    for case in FAULTY {
        let place = Place {
            line: case.line,
            column: case.column,
        };
        assert_eq!(rt;
            place_of(rt.alloc(), case.text),
            Some(place),
            "of {:?}",
            case.text
        );
    }
    let tokens = lex(rt.alloc(), b"(*\n*) \"\n\" a\n\tb")?;
    let places = [(2, 4), (3, 3), (4, 2)];
    assert_eq!(rt; tokens.len(), places.len());
    for (i, (line, column)) in places.into_iter().enumerate() {
        assert!(rt; i < tokens.len());
        assert_eq!(rt; tokens.view(i).place, Place { line, column });
    }
    Ok(())
}

// Texts, each with the line and column behind its last byte.
const ENDS: &[(&[u8], u32, u32)] = &[
    (b"", 1, 1),
    (b"a", 1, 2),
    (b"a \r\n", 2, 1),
    (b"(*\n*) \"\n\\\n\" a\n\tb ", 5, 4),
];

#[test]
fn tells_the_end(rt: HostRuntime) -> Result<(), Fail> {
    for (text, line, column) in ENDS {
        assert!(rt; text.len() <= 100);
        let end = Place {
            line: *line,
            column: *column,
        };
        assert_eq!(rt; lex(rt.alloc(), text)?.end(), end, "of {text:?}");
    }
    Ok(())
}

#[test]
fn reads_values(rt: HostRuntime) -> Result<(), Fail> {
    assert_eq!(rt; integer_value(b"1_2_"), Some(12));
    assert_eq!(rt; integer_value(b"0xfF_"), Some(255));
    assert_eq!(rt; integer_value(b"0b101"), Some(5));
    assert_eq!(rt; integer_value(b"0o17"), Some(15));
    assert_eq!(rt;
        integer_value(b"4611686018427387904"),
        Some(4611686018427387904)
    );
    assert_eq!(rt; integer_value(b"4611686018427387905"), None);
    assert_eq!(rt; character_byte(b"'a'"), Some(b'a'));
    assert_eq!(rt; character_byte(b"'\\n'"), Some(10));
    assert_eq!(rt; character_byte(b"'\\x4f'"), Some(79));
    assert_eq!(rt; character_byte(b"'\\065'"), Some(65));
    assert_eq!(rt; character_byte(b"'ab'"), None);
    let text = b"\"a\\\n \t b\\\\n\\\"\\065\\x7a\\ \\b\\\n\"";
    let bytes = string_bytes(rt.alloc(), text)?;
    assert_eq!(rt; bytes.as_slice(), b"ab\\n\"Az \x08".as_slice());
    Ok(())
}
