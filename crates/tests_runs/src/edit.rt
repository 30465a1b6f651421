//! Changes of texts.

use crate::fault::Fault;
use memchr::memmem;
use std::alloc::Global;

/// What stands before the first place of a part in a text, and behind it.
fn split_at_part<'a>(text: &'a [u8], part: &[u8]) -> Option<(&'a [u8], &'a [u8])> {
    let at = memmem::find(text, part)?;
    let (before, from) = text.split_at_checked(at)?;
    let behind = from.strip_prefix(part)?;
    Some((before, behind))
}

/// The text with another in place of a part that stands exactly once.
pub(crate) fn replace_once(
    alloc: Global,
    text: &[u8],
    old: &[u8],
    new: &[u8],
) -> Result<Vec<u8>, Fault> {
    let Some((before, behind)) = split_at_part(text, old) else {
        return Err(Fault::NotOnce);
    };
    if split_at_part(behind, old).is_some() {
        return Err(Fault::NotOnce);
    }
    let mut changed = Vec::from_slice(alloc, before)?;
    changed.extend_from_slice(new)?;
    changed.extend_from_slice(behind)?;
    Ok(changed)
}

/// The text with another in place of a part wherever it stands, which is at least once.
pub(crate) fn replace_each(
    alloc: Global,
    text: &[u8],
    old: &[u8],
    new: &[u8],
) -> Result<Vec<u8>, Fault> {
    if old.is_empty() || split_at_part(text, old).is_none() {
        return Err(Fault::NotThere);
    }
    let mut changed = Vec::new(alloc);
    let mut rest = text;
    for _place in 0..text.len() {
        let Some((before, behind)) = split_at_part(rest, old) else {
            break;
        };
        changed.extend_from_slice(before)?;
        changed.extend_from_slice(new)?;
        rest = behind;
    }
    changed.extend_from_slice(rest)?;
    Ok(changed)
}

/// The first lines of a text, so many of them.
pub(crate) fn first_lines(alloc: Global, text: &[u8], count: usize) -> Result<Vec<u8>, Fault> {
    let mut kept = Vec::new(alloc);
    let mut lines = 0usize;
    for line in text.split_inclusive(|byte| *byte == b'\n') {
        if lines < count {
            lines = lines.saturating_add(1);
            kept.extend_from_slice(line)?;
        }
    }
    if lines == count {
        Ok(kept)
    } else {
        Err(Fault::NoLine)
    }
}

/// The text without the line of this number.
pub(crate) fn without_line(alloc: Global, text: &[u8], number: usize) -> Result<Vec<u8>, Fault> {
    let mut kept = Vec::new(alloc);
    let mut lines = 0usize;
    for line in text.split_inclusive(|byte| *byte == b'\n') {
        lines = lines.saturating_add(1);
        if lines != number {
            kept.extend_from_slice(line)?;
        }
    }
    if 0 < number && number <= lines {
        Ok(kept)
    } else {
        Err(Fault::NoLine)
    }
}

/// The text with lines more, the first of which becomes that of this number.
pub(crate) fn with_lines(
    alloc: Global,
    text: &[u8],
    number: usize,
    added: &[u8],
) -> Result<Vec<u8>, Fault> {
    let mut made = Vec::new(alloc);
    let mut next = 1usize;
    for line in text.split_inclusive(|byte| *byte == b'\n') {
        if next == number {
            made.extend_from_slice(added)?;
        }
        next = next.saturating_add(1);
        made.extend_from_slice(line)?;
    }
    if next == number {
        made.extend_from_slice(added)?;
    }
    if 0 < number && number <= next {
        Ok(made)
    } else {
        Err(Fault::NoLine)
    }
}

/// The text with lines behind it.
pub(crate) fn with_lines_behind(
    alloc: Global,
    text: &[u8],
    added: &[u8],
) -> Result<Vec<u8>, Fault> {
    let mut made = Vec::from_slice(alloc, text)?;
    made.extend_from_slice(added)?;
    Ok(made)
}
