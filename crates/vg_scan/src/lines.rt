//! Lines and words.

ghost use Rattle.std.specs.Prelude.{◌≡◌, ℕ, true, slice_index, ◌-◌, ◌+◌, ◌<◌, ◌≤◌, ◌∷◌, [], length, take, drop, MatchOption, ⊤, ◌↔◌, IsNone};
ghost use Rattle.std.specs.List.{position, AllPass};
ghost use Rattle.std.specs.Str.Lines.{lines};
ghost use Rattle.vg_scan.specs.Lines.{is_blank, is_ink, is_newline, line_number, lines_of, words, part, BeginsLine};
ghost use Rattle.vg_scan.specs.Spans.{part_at, IsFirstLine, AreFirstWords, AreFirstOfParts, IsAloneWhereCut, BeginsAt, IsFirstWord, IsAfterBlanks, FollowsWord};

use memchr::memchr;

/// A part of a text: the bytes from one place to another, the last one not taken in.
#[derive(Clone, Copy, Debug, PartialEq, Eq, Drop)]
pub struct Span {
    pub from: usize,
    pub to: usize,
}

pub(crate) fn newline_at(bytes: &[u8]) -> Option<usize>
    ensures { result ≡ position is_newline bytes.now }
{
    memchr(b'\n', bytes)
}

fn blank_at(bytes: &[u8]) -> Option<usize>
    ensures { result ≡ position is_blank bytes.now }
{
    bytes
        .iter()
        .position(|byte| *byte == b' ' || *byte == b'\t')
}

fn ink_at(bytes: &[u8]) -> Option<usize>
    ensures { result ≡ position is_ink bytes.now }
{
    bytes
        .iter()
        .position(|byte| !(*byte == b' ' || *byte == b'\t'))
}

/// The length of the first line of a text that is not empty, and how many bytes it takes with its end.
fn line_lengths(text: &[u8]) -> (usize, usize)
    requires { 0 < length text.now }
    ensures line { lines text.now ≡ take result.0 text.now ∷ lines (drop result.1 text.now) }
    // The same of the text's parts from its start on.
    ensures cut { (m : ℕ) → result.1 ≤ m
        → lines (take m text.now) ≡ take result.0 text.now ∷ lines (take (m - result.1) (drop result.1 text.now)) }
    ensures last { (m : ℕ) → 0 < m → m ≤ result.0 → lines (take m text.now) ≡ take m text.now ∷ [] }
    ensures newline { result.1 < length text.now → slice_index text.now (result.1 - 1) ≡ 10 }
    ensures place { (result.0 ≤ result.1) × (0 < result.1) × (result.1 ≤ length text.now) }
{
    match newline_at(text) {
        None => (text.len(), text.len()),
        Some(end) => {
            if end > 0 && text[end - 1] == b'\r' {
                (end - 1, end + 1)
            } else {
                (end, end + 1)
            }
        }
    }
}

/// The line that begins at a place, without its end, and where the next one begins. `None`: the text ends there.
///
/// A line ends with a newline, or with a carriage return and a newline.
#[tactic(auto, unfolding(crate::specs::Lines::lines_of))]
pub fn next_line(bytes: &[u8], at: usize) -> Option<(Span, usize)>
    requires { at ≤ length bytes.now }
    ensures line { MatchOption result (lines (drop at bytes.now) ≡ []) (IsFirstLine bytes.now at) }
    ensures words { MatchOption result (lines_of (drop at bytes.now) ≡ []) (AreFirstWords bytes.now at) }
    // The same where the text ends earlier: in a later line, or in this one.
    ensures cut { MatchOption result ⊤ (AreFirstOfParts bytes.now at) }
    ensures last { MatchOption result ⊤ (IsAloneWhereCut bytes.now at) }
    ensures begins { MatchOption result ⊤ (λ found. BeginsLine bytes.now found.1) }
    ensures place { MatchOption result (at ≡ length bytes.now) (BeginsAt bytes.now at) }
{
    if at == bytes.len() {
        return None;
    }
    let (length, taken) = line_lengths(&bytes[at..]);
    Some((
        Span {
            from: at,
            to: at + length,
        },
        at + taken,
    ))
}

/// Where the first word of a line begins and ends.
fn word_in(line: &[u8]) -> Option<(usize, usize)>
    ensures blank { IsNone result ↔ AllPass is_blank line.now }
    ensures word { MatchOption result (words line.now ≡ []) (λ found.
        words line.now ≡ part line.now found.0 found.1 ∷ words (drop found.1 line.now)) }
    ensures before { MatchOption result ⊤ (λ found. (k : ℕ) → k < found.0 → is_blank (slice_index line.now k) ≡ true) }
    ensures ink { MatchOption result ⊤ (λ found. is_ink (slice_index line.now found.0) ≡ true) }
    ensures alone { MatchOption result ⊤ (λ found. words (take found.1 line.now) ≡ part line.now found.0 found.1 ∷ []) }
    ensures place { MatchOption result ⊤ (λ found. (found.0 < found.1) × (found.1 ≤ length line.now)) }
{
    match ink_at(line) {
        None => None,
        Some(from) => match blank_at(&line[from..]) {
            None => Some((from, line.len())),
            Some(len) => Some((from, from + len)),
        },
    }
}

/// The first word of a part of a text, and the rest of the part. `None`: the part has only blanks.
pub fn next_word(bytes: &[u8], within: Span) -> Option<(Span, Span)>
    requires { (within.from ≤ within.to) × (within.to ≤ length bytes.now) }
    ensures blank { IsNone result ↔ AllPass is_blank (part bytes.now within.from within.to) }
    ensures word { MatchOption result (words (part_at bytes.now within) ≡ []) (IsFirstWord bytes.now within) }
    // Only blanks stand before the word, and it is the only word up to its end.
    ensures before { MatchOption result ⊤ (IsAfterBlanks bytes.now within) }
    ensures ink { MatchOption result ⊤ (λ found. is_ink (slice_index bytes.now found.0.from) ≡ true) }
    ensures alone { MatchOption result ⊤ (λ found.
        words (part bytes.now within.from found.0.to) ≡ part bytes.now found.0.from found.0.to ∷ []) }
    ensures place { MatchOption result ⊤ (FollowsWord within) }
{
    let start = within.from;
    match word_in(&bytes[start..within.to]) {
        None => None,
        Some((from, to)) => Some((
            Span {
                from: start + from,
                to: start + to,
            },
            Span {
                from: start + to,
                to: within.to,
            },
        )),
    }
}

/// The part of a text between two places, as far as the text reaches.
pub fn text_at(bytes: &[u8], span: Span) -> &[u8]
    ensures { result.now ≡ part bytes.now span.from span.to }
{
    let to = span.to.min(bytes.len());
    let from = span.from.min(to);
    &bytes[from..to]
}

/// The text from a place on.
pub fn text_from(text: &[u8], at: usize) -> &[u8]
    requires { at ≤ length text.now }
    ensures { result.now ≡ drop at text.now }
{
    &text[at..]
}

/// The number of the line in which a place stands; the first is 1.
pub fn line_of(bytes: &[u8], at: usize) -> usize
    requires { at ≤ length bytes.now }
    ensures { result ≡ line_number bytes.now at }
{
    let front = &bytes[..at];
    let mut count = 1;
    for byte in front {
        if *byte == b'\n' {
            count += 1;
        }
    }
    count
}
