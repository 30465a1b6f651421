//! The tokens of a text, one after another.

ghost use Rattle.std.specs.Prelude.{◌≡◌, ◌==◌, ◌+◌, ◌<◌, ◌≤◌, ◌&&◌, ◌||◌, length, drop, nat_le, slice_index, MatchOption, [], false};
ghost use Rattle.std.specs.List.{prefix_len};
ghost use Rattle.vg_scan.specs.Lines.{is_blank};
ghost use Rattle.lib_text.specs.declared.quoting.Quoting.TheVariants.{Outside};
ghost use Rattle.lib_text.specs.declared.token.Content.TheVariants.{Value as OfValue, List as OfList};
ghost use Rattle.lib_text.specs.Strings.{is_quoted};
ghost use Rattle.lib_text.specs.Tokens.{kind_by, is_space, is_letter, is_word_byte, content_after, ends, end_of, is_sound};
ghost use Rattle.lib_text.specs.Found.{tokens_next, IsFirst};

use crate::quoting::Quoting;
use crate::token::{Content, Found, Token, TokenKind};

fn is_blank(byte: u8) -> bool
    ensures { result ≡ is_blank byte }
{
    byte == b' ' || byte == b'\t'
}

fn is_space(byte: u8) -> bool
    ensures { result ≡ is_space byte }
{
    is_blank(byte) || byte == b'\n'
}

fn is_letter(byte: u8) -> bool
    ensures { result ≡ is_letter byte }
{
    (b'a' <= byte && byte <= b'z') || (b'A' <= byte && byte <= b'Z') || byte == b'_'
}

fn is_word_byte(byte: u8) -> bool
    ensures { result ≡ is_word_byte byte }
{
    is_letter(byte) || (b'0' <= byte && byte <= b'9')
}

/// The first place, from a place on, where no space stands, or the text's end.
fn space_end(text: &[u8], at: usize) -> usize
    requires { at ≤ length text.now }
    ensures place { result ≡ at + prefix_len is_space (drop at text.now) }
    ensures within { result ≤ length text.now }
    ensures solid { result < length text.now → is_space (slice_index text.now result) ≡ false }
{
    let mut end = at;
    'space: while end < text.len() && is_space(text[end]) {
        end += 1;
    }
    end
}

/// The first place, from a place on, where no byte of a word stands, or the text's end.
pub(crate) fn word_end(text: &[u8], at: usize) -> usize
    requires { at ≤ length text.now }
    ensures place { result ≡ at + prefix_len is_word_byte (drop at text.now) }
    ensures within { result ≤ length text.now }
{
    let mut end = at;
    'word: while end < text.len() && is_word_byte(text[end]) {
        end += 1;
    }
    end
}

/// The first place, from a place on, where no blank stands, or the text's end.
fn blank_end(text: &[u8], at: usize) -> usize
    requires { at ≤ length text.now }
    ensures place { result ≡ at + prefix_len is_blank (drop at text.now) }
    ensures within { result ≤ length text.now }
{
    let mut end = at;
    'blank: while end < text.len() && is_blank(text[end]) {
        end += 1;
    }
    end
}

/// Whether a value or a list ends before a byte.
fn ends(content: Content, quoting: Quoting, byte: u8) -> bool
    ensures { result ≡ ends content quoting byte }
{
    match content {
        Content::Value => byte == b'\n' || (!quoting.is_quoted() && (byte == b';' || byte == b'}')),
        Content::List => !quoting.is_quoted() && byte == b')',
    }
}

/// Whether bytes are sound, as those before a byte are, and this byte too.
fn stays_sound(sound: bool, quoting: Quoting, byte: u8) -> bool
    ensures { result ≡ (sound && (is_quoted quoting || nat_le byte 126)) }
{
    sound && (quoting.is_quoted() || byte <= 126)
}

/// Where a value or a list ends that begins at a place, or the text's end; and whether no byte over 126 stands in it
/// outside strings.
fn content_end(text: &[u8], at: usize, content: Content) -> (usize, bool)
    requires { at ≤ length text.now }
    ensures place { result.0 ≡ at + end_of content Outside (drop at text.now) }
    ensures sound { result.1 ≡ is_sound content Outside (drop at text.now) }
    ensures within { result.0 ≤ length text.now }
{
    let mut end = at;
    let mut quoting = Quoting::Outside;
    let mut sound = true;
    'content: while end < text.len() && !ends(content, quoting, text[end]) {
        sound = stays_sound(sound, quoting, text[end]);
        quoting = quoting.after(text[end]);
        end += 1;
    }
    (end, sound)
}

fn content_after(byte: u8) -> Option<Content>
    ensures { result ≡ content_after byte }
{
    match byte {
        b':' => Some(Content::Value),
        b'(' => Some(Content::List),
        _ => None,
    }
}

/// The token that begins with the byte at a place.
fn token_at(text: &[u8], at: usize) -> Found
    requires within { at < length text.now }
    requires solid { is_space (slice_index text.now at) ≡ false }
    ensures { IsFirst text.now None at result }
{
    let byte = text[at];
    if is_letter(byte) {
        let to = word_end(text, at + 1);
        let token = Token {
            kind: TokenKind::Word,
            from: at,
            to,
        };
        return Found {
            token,
            at: to,
            content: None,
        };
    }
    let token = Token {
        kind: TokenKind::Mark(byte),
        from: at,
        to: at + 1,
    };
    Found {
        token,
        at: at + 1,
        content: content_after(byte),
    }
}

/// The token that begins at a place, or after spaces there.
fn plain_token(text: &[u8], at: usize) -> Option<Found>
    requires { at ≤ length text.now }
    ensures { MatchOption result (tokens_next text.now None at ≡ []) (IsFirst text.now None at) }
{
    let from = space_end(text, at);
    if from == text.len() {
        return None;
    }
    Some(token_at(text, from))
}

fn value_kind(size: usize, sound: bool) -> TokenKind
    ensures { result ≡ kind_by OfValue (size == 0) sound }
{
    if size == 0 || !sound {
        TokenKind::Broken
    } else {
        TokenKind::Value
    }
}

fn list_kind(sound: bool) -> TokenKind
    ensures { result ≡ kind_by OfList false sound }
{
    if sound {
        TokenKind::List
    } else {
        TokenKind::Broken
    }
}

/// The value that begins at a place, or after blanks there.
fn value_token(text: &[u8], at: usize) -> Option<Found>
    requires { at ≤ length text.now }
    ensures { MatchOption result (tokens_next text.now (Some OfValue) at ≡ []) (IsFirst text.now (Some OfValue) at) }
{
    let from = blank_end(text, at);
    if from == text.len() {
        return None;
    }
    let (to, sound) = content_end(text, from, Content::Value);
    let token = Token {
        kind: value_kind(to - from, sound),
        from,
        to,
    };
    Some(Found {
        token,
        at: to,
        content: None,
    })
}

/// The list that begins at a place.
fn list_token(text: &[u8], at: usize) -> Option<Found>
    requires { at ≤ length text.now }
    ensures { MatchOption result (tokens_next text.now (Some OfList) at ≡ []) (IsFirst text.now (Some OfList) at) }
{
    let (to, sound) = content_end(text, at, Content::List);
    if to == text.len() {
        return None;
    }
    let token = Token {
        kind: list_kind(sound),
        from: at,
        to,
    };
    Some(Found {
        token,
        at: to,
        content: None,
    })
}

/// The first token from a place on, of this content if any. `None`: the text ends before one.
pub(crate) fn next_token(text: &[u8], at: usize, content: Option<Content>) -> Option<Found>
    requires { at ≤ length text.now }
    ensures { MatchOption result (tokens_next text.now content at ≡ []) (IsFirst text.now content at) }
{
    match content {
        None => plain_token(text, at),
        Some(Content::Value) => value_token(text, at),
        Some(Content::List) => list_token(text, at),
    }
}
