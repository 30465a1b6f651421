//! Lines and words of texts.

use vg_scan::{Span, Words, line_of, next_line, next_word, text_at};

const LINES: &[u8] = b"a b\r\n\tcd";

/// The next line from a place, and where the one behind it begins.
fn line_at(at: usize) -> Option<(usize, usize, usize)> {
    if at > LINES.len() {
        return None;
    }
    let (line, next) = next_line(LINES, at)?;
    Some((line.from, line.to, next))
}

/// The next word of a part of the lines, and what is left of the part.
fn word_at(from: usize, to: usize) -> Option<(usize, usize, usize, usize)> {
    if from > to || to > LINES.len() {
        return None;
    }
    let (word, rest) = next_word(LINES, Span { from, to })?;
    Some((word.from, word.to, rest.from, rest.to))
}

#[test]
fn lines_and_words(rt: HostRuntime) {
    assert!(rt; line_at(0) == Some((0, 3, 5)));
    assert!(rt; line_at(8).is_none());
    assert!(rt; word_at(5, 8) == Some((6, 8, 8, 8)));
    assert!(rt; word_at(5, 6).is_none());
    assert!(rt; line_of(LINES, 4) == 1 && line_of(LINES, 5) == 2);
    assert!(rt; text_at(LINES, Span { from: 6, to: 9 }) == b"cd".as_slice());
}

/// Lines, and their words with a bar after each.
static LINE_WORDS: [(&[u8], &[u8]); 6] = [
    (b"", b""),
    (b" \t ", b""),
    (b"*CAP", b"*CAP|"),
    (b"1 n:1 0.5", b"1|n:1|0.5|"),
    (b"\t 1\t\tn:1  0.5 \t", b"1|n:1|0.5|"),
    (b"a\x01b c\r", b"a\x01b|c\r|"),
];

/// Whether these are the words of a line, with a bar after each.
fn are_words(line: &[u8], shown: &[u8]) -> bool {
    let mut words = Words::new(line);
    let mut rest = shown;
    while let Some(word) = words.next() {
        let Some(after) = rest.strip_prefix(word) else {
            return false;
        };
        let [b'|', after @ ..] = after else {
            return false;
        };
        rest = after;
    }
    words.is_empty() && rest.is_empty()
}

#[test]
fn words_one_by_one(rt: HostRuntime) {
    for (line, shown) in &LINE_WORDS {
        assert!(rt; are_words(line, shown));
    }
    assert!(rt; !Words::new(b" a").is_empty());
}
