//! The words of a line, with one blank between.

ghost use Rattle.std.specs.Prelude.{◌≡◌, ◌==◌, ◌≤◌, false, [], ◌∷◌, length, MatchOption};
ghost use Rattle.std.specs.List.{position};
ghost use Rattle.vg_scan.specs.Lines.{is_blank};
ghost use Rattle.vg_cert.specs.Lines.{words};
ghost use Rattle.vg_cert.specs.Readings.{put_before};

fn blank_at(line: &[u8]) -> Option<usize>
    ensures { result ≡ position is_blank line.now }
{
    line.iter().position(|byte| *byte == b' ' || *byte == b'\t')
}

/// A line's first word, and what stands after the blank that ends it. `None`: no line of two words or more begins so.
fn first_word(line: &[u8]) -> Option<(&[u8], &[u8])>
    ensures { MatchOption result (length (words line.now) ≤ 1) (λ found.
        words line.now ≡ put_before found.0.now (words found.1.now)) }
{
    let at = match blank_at(line) {
        None => return None,
        Some(at) => at,
    };
    if at == 0 {
        return None;
    }
    Some((&line[..at], &line[at + 1..]))
}

/// The word of a line that has one.
pub(crate) fn one_word(line: &[u8]) -> Option<&[u8]>
    ensures { MatchOption result ((length (words line.now) == 1) ≡ false) (λ found. words line.now ≡ found.now ∷ []) }
{
    match blank_at(line) {
        Some(_) => None,
        None if line.is_empty() => None,
        None => Some(line),
    }
}

/// The words of a line that has two.
pub(crate) fn two_words(line: &[u8]) -> Option<(&[u8], &[u8])>
    ensures { MatchOption result ((length (words line.now) == 2) ≡ false) (λ found.
        words line.now ≡ found.0.now ∷ found.1.now ∷ []) }
{
    let (first, rest) = first_word(line)?;
    let second = one_word(rest)?;
    Some((first, second))
}

/// The words of a line that has three.
pub(crate) fn three_words(line: &[u8]) -> Option<(&[u8], &[u8], &[u8])>
    ensures { MatchOption result ((length (words line.now) == 3) ≡ false) (λ found.
        words line.now ≡ found.0.now ∷ found.1.now ∷ found.2.now ∷ []) }
{
    let (first, rest) = first_word(line)?;
    let (second, third) = two_words(rest)?;
    Some((first, second, third))
}

/// The words of a line that has four.
pub(crate) fn four_words(line: &[u8]) -> Option<(&[u8], &[u8], &[u8], &[u8])>
    ensures { MatchOption result ((length (words line.now) == 4) ≡ false) (λ found.
        words line.now ≡ found.0.now ∷ found.1.now ∷ found.2.now ∷ found.3.now ∷ []) }
{
    let (first, rest) = first_word(line)?;
    let (second, third, fourth) = three_words(rest)?;
    Some((first, second, third, fourth))
}
