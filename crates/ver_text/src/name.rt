//! The names that identifiers give.

ghost use Rattle.std.specs.Prelude.{◌≡◌};
ghost use Rattle.std.specs.List.{list_all};
ghost use Rattle.ver_text.specs.Bytes.{is_word_byte};
ghost use Rattle.ver_text.specs.Names.{is_escaped, is_identifier, is_simple, is_word, name_of};

use crate::class::{is_letter, is_word_byte};
use crate::kind::Kind;
use crate::words::word_kind;

/// Whether an identifier is an escaped one: it begins with a backslash.
pub fn is_escaped(identifier: &[u8]) -> bool
    ensures { result ≡ is_escaped identifier.now }
{
    matches!(identifier, [b'\\', ..])
}

/// The name that an identifier gives: the backslash of an escaped one is no part of it (IEEE Std 1364-2005, 3.7.1).
pub fn name_of(identifier: &[u8]) -> &[u8]
    ensures { result.now ≡ name_of identifier.now }
{
    if is_escaped(identifier) {
        &identifier[1..]
    } else {
        identifier
    }
}

fn are_word_bytes(text: &[u8]) -> bool
    ensures { result ≡ list_all is_word_byte text.now }
{
    text.iter().all(|byte| is_word_byte(*byte))
}

fn is_word(text: &[u8]) -> bool
    ensures { result ≡ is_word text.now }
{
    match text {
        [] => false,
        [first, rest @ ..] => is_letter(*first) && are_word_bytes(rest),
    }
}

fn is_identifier(kind: Kind) -> bool
    ensures { result ≡ is_identifier kind }
{
    match kind {
        Kind::Identifier => true,
        _ => false,
    }
}

/// Whether a name is a simple identifier: a letter or `_`, then letters, digits, `_` and `$`, and no keyword.
pub fn is_simple(name: &[u8]) -> bool
    ensures { result ≡ is_simple name.now }
{
    is_word(name) && is_identifier(word_kind(name))
}
