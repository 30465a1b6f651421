//! Tokens of netlists, where they stand in the grammar, and names as they are printed.

use std::test::Fail;
use ver_syntax::{Place, Row, Rows};
use ver_text::{
    Kind, Token, TokenKind, Tokens, is_escaped, name_of, number_of, print_escaped, print_name,
};

/// Texts and their tokens: kinds, and where they stand.
static TOKENS: [(&[u8], &[(TokenKind, usize, usize)]); 13] = [
    (
        b"a$1 _b",
        &[(TokenKind::Word, 0, 3), (TokenKind::Word, 4, 6)],
    ),
    (
        b"\\a//b \\c",
        &[(TokenKind::Escaped, 0, 5), (TokenKind::Escaped, 6, 8)],
    ),
    (
        b"\\a\r\n\\b\t\\(*",
        &[
            (TokenKind::Escaped, 0, 2),
            (TokenKind::Escaped, 4, 6),
            (TokenKind::Escaped, 7, 10),
        ],
    ),
    (
        b"4'b0 'Sb1",
        &[
            (TokenKind::Based, 0, 4),
            (TokenKind::Stray, 5, 6),
            (TokenKind::Word, 6, 9),
        ],
    ),
    (
        b"4 'sHf_?",
        &[(TokenKind::Digits, 0, 1), (TokenKind::Based, 2, 8)],
    ),
    (
        b"4'bX",
        &[
            (TokenKind::Digits, 0, 1),
            (TokenKind::Stray, 1, 2),
            (TokenKind::Word, 2, 4),
        ],
    ),
    (
        b"8'o78",
        &[(TokenKind::Based, 0, 4), (TokenKind::Digits, 4, 5)],
    ),
    (
        b"(*)*)(/*/*/)",
        &[
            (TokenKind::Mark(b'('), 5, 6),
            (TokenKind::Mark(b')'), 11, 12),
        ],
    ),
    (
        b"a // b\r\n /*\n`c*/d",
        &[(TokenKind::Word, 0, 1), (TokenKind::Word, 16, 17)],
    ),
    (
        b"`a\n \t`b /*\nc`",
        &[(TokenKind::Word, 11, 12), (TokenKind::Stray, 12, 13)],
    ),
    (
        b"a/*/",
        &[(TokenKind::Word, 0, 1), (TokenKind::Unclosed, 1, 4)],
    ),
    (b"(*)", &[(TokenKind::Unclosed, 0, 3)]),
    (
        b"\\ \r\"",
        &[
            (TokenKind::Stray, 0, 1),
            (TokenKind::Stray, 2, 3),
            (TokenKind::Stray, 3, 4),
        ],
    ),
];

fn token(kind: TokenKind, from: usize, to: usize) -> Token {
    Token { kind, from, to }
}

/// Whether the tokens of a text are these.
fn has_tokens(text: &[u8], expected: &[(TokenKind, usize, usize)]) -> bool {
    let mut tokens = Tokens::new(text);
    for (kind, from, to) in expected {
        if tokens.next() != Some(token(*kind, *from, *to)) {
            return false;
        }
    }
    tokens.next() == None
}

#[test]
fn tokens(rt: HostRuntime) {
    for (text, expected) in &TOKENS {
        assert!(rt; has_tokens(text, expected), "{text:?}");
    }
}

/// A name and how it is printed.
static NAMES: [(&str, &str); 6] = [
    ("n1", "n1"),
    ("_a$9", "_a$9"),
    ("wire", "\\wire "),
    ("a[3]", "\\a[3] "),
    ("9a", "\\9a "),
    ("$a", "\\$a "),
];

#[test]
fn names(rt: HostRuntime) -> Result<(), Fail> {
    for (name, printed) in &NAMES {
        let mut text = vec![in rt.alloc(); b';']?;
        print_name(name.as_bytes(), &mut text)?;
        assert!(rt; &text[1..] == printed.as_bytes(), "{name}");
    }
    let mut text = Vec::new(rt.alloc());
    print_escaped(b"n1", &mut text)?;
    assert!(rt; text.as_slice() == b"\\n1 ".as_slice());
    assert!(rt; is_escaped(b"\\n1") && name_of(b"\\n1") == name_of(b"n1"));
    assert!(rt; number_of(b"007") == 7 && number_of(b"1048577") == number_of(b"9999999999"));
    Ok(())
}

/// The most bytes of a text whose rows are tried.
const MOST: usize = 100;

/// Whether the rows of a text are these, and it is short.
fn has_rows(text: &[u8], expected: &[(Place, Kind, u32, u32)]) -> bool {
    if text.len() > MOST {
        return false;
    }
    let mut rows = Rows::new(text);
    for (place, kind, from, to) in expected {
        let row = Row {
            place: *place,
            kind: *kind,
            from: *from,
            to: *to,
        };
        if rows.next() != Some(row) {
            return false;
        }
    }
    rows.next() == None
}

/// Texts, and the place, the kind and the ends of each token.
static ROWS: [(&[u8], &[(Place, Kind, u32, u32)]); 3] = [
    (
        b"module m(a);endmodule",
        &[
            (Place::Start, Kind::Module, 0, 6),
            (Place::Head, Kind::Identifier, 7, 8),
            (Place::Head, Kind::Open, 8, 9),
            (Place::Ports, Kind::Identifier, 9, 10),
            (Place::Ports, Kind::Close, 10, 11),
            (Place::Head, Kind::Semicolon, 11, 12),
            (Place::Start, Kind::EndModule, 12, 21),
        ],
    ),
    (
        b"wire [3:0] \\a+ ;assign b=1'b0;",
        &[
            (Place::Start, Kind::Wire, 0, 4),
            (Place::Declaration, Kind::OpenSquare, 5, 6),
            (Place::Declaration, Kind::Small, 6, 7),
            (Place::Declaration, Kind::Colon, 7, 8),
            (Place::Declaration, Kind::Zero, 8, 9),
            (Place::Declaration, Kind::CloseSquare, 9, 10),
            (Place::Declaration, Kind::Identifier, 11, 14),
            (Place::Declaration, Kind::Semicolon, 15, 16),
            (Place::Start, Kind::Assign, 16, 22),
            (Place::Assignment, Kind::Identifier, 23, 24),
            (Place::Assignment, Kind::Equals, 24, 25),
            (Place::Assignment, Kind::Based, 25, 29),
            (Place::Assignment, Kind::Semicolon, 29, 30),
        ],
    ),
    (
        b"f u(.a(b));",
        &[
            (Place::Start, Kind::Identifier, 0, 1),
            (Place::Instances, Kind::Identifier, 2, 3),
            (Place::Instances, Kind::Open, 3, 4),
            (Place::Pins, Kind::Dot, 4, 5),
            (Place::Pins, Kind::Identifier, 5, 6),
            (Place::Pins, Kind::Open, 6, 7),
            (Place::Connection, Kind::Identifier, 7, 8),
            (Place::Connection, Kind::Close, 8, 9),
            (Place::Pins, Kind::Close, 9, 10),
            (Place::Instances, Kind::Semicolon, 10, 11),
        ],
    ),
];

#[test]
fn rows(rt: HostRuntime) {
    for (text, expected) in &ROWS {
        assert!(rt; has_rows(text, expected), "{text:?}");
    }
}
