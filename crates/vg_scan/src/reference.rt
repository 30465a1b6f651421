//! References to an index of names.

ghost use Rattle.std.specs.Prelude.{◌≡◌, option_map};
ghost use Rattle.vg_num.specs.Number.{are_digits, is_digit};
ghost use Rattle.std.specs.List.{list_all};
ghost use Rattle.vg_scan.specs.References.{is_reference, index_of};

fn all_digits(text: &[u8]) -> bool
    ensures { result ≡ list_all is_digit text.now }
{
    text.iter().all(|byte| b'0' <= *byte && *byte <= b'9')
}

/// Whether a text is one digit or more, and nothing else.
pub fn are_digits(text: &[u8]) -> bool
    ensures { result ≡ are_digits text.now }
{
    !text.is_empty() && all_digits(text)
}

/// Whether a text begins with an unescaped `*`, as a reference to an index of names does (IEEE Std 1481).
pub fn is_reference(text: &[u8]) -> bool
    ensures { result ≡ is_reference text.now }
{
    matches!(text, [b'*', ..])
}

/// The digits of a reference to an index of names: `*`, one digit or more, and nothing else. `None`: another text.
pub fn index_of(text: &[u8]) -> Option<&[u8]>
    ensures { option_map (λ digits. digits.now) result ≡ index_of text.now }
{
    if !is_reference(text) {
        return None;
    }
    let digits = &text[1..];
    if are_digits(digits) {
        Some(digits)
    } else {
        None
    }
}
