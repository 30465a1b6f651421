//! One line of a file after another.

ghost use Rattle.std.specs.Prelude.{◌≡◌, ◌<◌, ◌≤◌, ◌^◌, ◌+◌, length, OnOk, IfOk, ℕ, true, slice_index, option_map};
ghost use Rattle.vg_scan.specs.Lines.{lines_of, words, part, is_blank, BeginsLine};
ghost use Rattle.spef_file.specs.NetSpans.{BeginsWord, IsLine, KeepsSpans, KeepsLines};
ghost use Rattle.vg_scan.specs.Spans.{IsIn, words_at, part_at};
ghost use Rattle.spef_file.specs.Words.{first_word, second_word, has_words};
ghost use Rattle.spef_file.specs.Keywords.{keyword_of};
ghost use Rattle.spef_file.specs.Views.{state_of, IsWhole, Passes, GoesTo, AddsGiven, AddsLine, IsHeadName, IsHead, CanonicalName};
ghost use Rattle.spef_file.specs.declared.keyword.Keyword.TheVariants.{Nothing, Net};
ghost use Rattle.std.specs.Prelude.{Ok, Some, None};
ghost use Rattle.vg_scan.specs.Names.{canonical};
ghost use Rattle.spef_file.specs.Machine.{given_fault};

use crate::fault::SpefKind;
use crate::header_line::{first_word, header_line, is_idle};
use crate::keyword::{Keyword, Region, keyword_of, same};
use crate::name_map::NameMap;
use crate::net_end::find_end;
use crate::reader::Reader;
use crate::section::Section;
use vg_scan::{
    Chars, NameFault, Span, index_of, is_reference, next_word, spell_name, text_at, words_of,
};

/// Takes a line of the header, or one that says nothing there.
pub(crate) fn take_header_line(
    reader: &mut Reader,
    bytes: &[u8],
    words: &[Span],
) -> Result<(), SpefKind>
    requires headed { reader.old.headed < 14 }
    requires whole { IsWhole reader.old }
    requires few { reader.old.count < 2 ^ 28 }
    ensures passes { Passes result (state_of reader.old) (state_of reader.new) (words_at bytes.now words.now) }
    ensures whole { OnOk result (IsWhole reader.new) }
    ensures nets { OnOk result (reader.new.nets ≡ reader.old.nets) }
    ensures count { OnOk result (reader.new.count ≡ reader.old.count + 1) }
{
    if is_idle(reader.headed, bytes, words) {
        reader.count += 1;
        return Ok(());
    }
    match header_line(reader.headed, &reader.heading, bytes, words) {
        Err(kind) => Err(kind),
        Ok(heading) => {
            reader.heading = heading;
            reader.headed += 1;
            reader.count += 1;
            Ok(())
        }
    }
}

/// Puts the name that a word is in place of what a list holds, and says whether the word is a name.
fn canonical_name(word: &[u8], chars: &Chars, name: &mut Vec<u8>) -> Result<bool, SpefKind>
    ensures { CanonicalName chars.now word.now name.new.items result }
{
    match spell_name(word, chars, name) {
        Ok(()) => Ok(true),
        Err(NameFault::Bad) => Ok(false),
        Err(NameFault::Memory) => Err(SpefKind::Memory),
    }
}

/// The fault of a line `*digits NAME` of a name map whose NAME is bad.
fn unnamed_fault(map: &NameMap, index: &[u8]) -> SpefKind
    ensures { given_fault map.now (Some index.now) None ≡ Some result }
{
    match map.find(index) {
        None => SpefKind::Stray,
        Some(_) => SpefKind::MapTwice,
    }
}

/// Adds the row of a name map whose line is `*digits NAME`, of these digits and this word.
fn take_given(
    name: &mut Vec<u8>,
    map: &mut NameMap,
    chars: &Chars,
    index: &[u8],
    word: &[u8],
) -> Result<(), SpefKind>
    requires { length map.old < 2 ^ 28 }
    ensures { AddsGiven result chars.now index.now word.now map.old map.new }
{
    match canonical_name(word, chars, name)? {
        false => Err(unnamed_fault(map, index)),
        true => match map.add(index, name.as_slice()) {
            Ok(true) => Ok(()),
            Ok(false) => Err(SpefKind::MapTwice),
            Err(_) => Err(SpefKind::Memory),
        },
    }
}

/// Adds the row of a name map that a line states.
fn take_row(
    name: &mut Vec<u8>,
    map: &mut NameMap,
    chars: &Chars,
    bytes: &[u8],
    words: &[Span],
) -> Result<(), SpefKind>
    requires { length map.old < 2 ^ 28 }
    ensures { AddsLine result chars.now (words_at bytes.now words.now) map.old map.new }
{
    let [index, word] = words else {
        return Err(SpefKind::Stray);
    };
    let Some(index) = index_of(text_at(bytes, *index)) else {
        return Err(SpefKind::Stray);
    };
    take_given(name, map, chars, index, text_at(bytes, *word))
}

/// Takes a line that opens nothing.
fn take_other_line(
    name: &mut Vec<u8>,
    reader: &mut Reader,
    bytes: &[u8],
    words: &[Span],
) -> Result<(), SpefKind>
    requires headed { 14 ≤ reader.old.headed }
    requires opens { keyword_of (first_word (words_at bytes.now words.now)) ≡ Nothing }
    requires whole { IsWhole reader.old }
    requires few { reader.old.count < 2 ^ 28 }
    ensures passes { Passes result (state_of reader.old) (state_of reader.new) (words_at bytes.now words.now) }
    ensures whole { OnOk result (IsWhole reader.new) }
    ensures nets { OnOk result (reader.new.nets ≡ reader.old.nets) }
    ensures count { OnOk result (reader.new.count ≡ reader.old.count + 1) }
{
    if words.is_empty() {
        reader.count += 1;
        return Ok(());
    }
    match reader.region {
        Region::Outside => Err(SpefKind::Stray),
        Region::InPassed => {
            reader.count += 1;
            Ok(())
        }
        Region::InMap => match take_row(
            name,
            &mut reader.map,
            &reader.heading.chars,
            bytes,
            words,
        ) {
            Err(kind) => Err(kind),
            Ok(()) => {
                reader.count += 1;
                Ok(())
            }
        },
    }
}

/// Puts the name of a net's head, by its second word, in place of what a list holds, and says whether the word is a
/// name.
///
/// Answers `MapUnknown` where the word refers to an index that is not mapped, and `Memory` where there is no room.
fn head_name(
    map: &NameMap,
    chars: &Chars,
    word: &[u8],
    name: &mut Vec<u8>,
) -> Result<bool, SpefKind>
    ensures { IsHeadName chars.now map.now word.now name.new.items result }
{
    if !is_reference(word) {
        return canonical_name(word, chars, name);
    }
    let Some(index) = index_of(word) else {
        return Err(SpefKind::MapUnknown);
    };
    let Some(found) = map.find(index) else {
        return Err(SpefKind::MapUnknown);
    };
    name.clear();
    match name.extend_from_slice(found) {
        Ok(()) => Ok(true),
        Err(_) => Err(SpefKind::Memory),
    }
}

/// The second of some words, or no text.
fn second_word<'a>(bytes: &'a [u8], words: &[Span]) -> &'a [u8]
    ensures { result.now ≡ second_word (words_at bytes.now words.now) }
{
    match words {
        [_, word, ..] => text_at(bytes, *word),
        _ => b"",
    }
}

/// Where the first word of a line begins.
fn start_of(bytes: &[u8], line: Span) -> usize
    requires { IsIn bytes.now line }
    ensures starts { KeepsLines bytes.now line.from result }
    ensures blank { (k : ℕ) → line.from ≤ k → k < result → is_blank (slice_index bytes.now k) ≡ true }
    ensures some { has_words (words (part_at bytes.now line)) ≡ true → result < line.to }
    ensures word { BeginsWord bytes.now result (words (part_at bytes.now line)) }
    ensures place { (line.from ≤ result) × (result ≤ line.to) }
{
    match next_word(bytes, line) {
        None => line.from,
        Some((word, _)) => word.from,
    }
}

/// Takes a net from its head on, of whose name this is known.
fn take_named_net(
    reader: &mut Reader,
    bytes: &[u8],
    words: &[Span],
    line: Span,
    next: usize,
    name: Option<&[u8]>,
) -> Result<usize, SpefKind>
    requires headed { 14 ≤ reader.old.headed }
    requires opens { keyword_of (first_word (words_at bytes.now words.now)) ≡ Net }
    requires whole { IsWhole reader.old }
    requires few { reader.old.count < 2 ^ 28 }
    requires line { IsLine bytes.now line next (words_at bytes.now words.now) }
    requires place { (next ≤ length bytes.now) × (length bytes.now ≤ 2 ^ 28) }
    requires name { IsHead reader.old.heading.chars reader.old.map (second_word (words_at bytes.now words.now))
        (option_map (λ name. name.now) name) }
    ensures goes { GoesTo bytes.now next result (state_of reader.old) (state_of reader.new)
        (words_at bytes.now words.now) }
    ensures whole { OnOk result (IsWhole reader.new) }
    ensures spans { KeepsSpans bytes.now next result reader.old reader.new (words_at bytes.now words.now) }
    ensures begins { IfOk result (BeginsLine bytes.now) }
    ensures place { IfOk result (λ to. (next ≤ to) × (to ≤ length bytes.now)
        × (reader.new.count + next ≤ reader.old.count + 1 + to)) }
{
    let Some(end) = find_end(bytes, next) else {
        return Err(SpefKind::NoEnd);
    };
    let Some(name) = name else {
        return Err(SpefKind::Stray);
    };
    let section = Section {
        from: start_of(bytes, line) as u32,
        to: end.to as u32,
        line: (reader.count + 1) as u32,
        reduced: same(first_word(bytes, words), b"*R_NET"),
    };
    match reader.nets.add(name, section) {
        Ok(true) => {
            reader.region = Region::Outside;
            reader.count += end.lines + 2;
            Ok(end.next)
        }
        Ok(false) => Err(SpefKind::NetTwice),
        Err(_) => Err(SpefKind::Memory),
    }
}

/// Takes a net from its head on.
fn take_net(
    name: &mut Vec<u8>,
    reader: &mut Reader,
    bytes: &[u8],
    words: &[Span],
    line: Span,
    next: usize,
) -> Result<usize, SpefKind>
    requires headed { 14 ≤ reader.old.headed }
    requires opens { keyword_of (first_word (words_at bytes.now words.now)) ≡ Net }
    requires whole { IsWhole reader.old }
    requires few { reader.old.count < 2 ^ 28 }
    requires line { IsLine bytes.now line next (words_at bytes.now words.now) }
    requires place { (next ≤ length bytes.now) × (length bytes.now ≤ 2 ^ 28) }
    ensures goes { GoesTo bytes.now next result (state_of reader.old) (state_of reader.new)
        (words_at bytes.now words.now) }
    ensures whole { OnOk result (IsWhole reader.new) }
    ensures spans { KeepsSpans bytes.now next result reader.old reader.new (words_at bytes.now words.now) }
    ensures begins { IfOk result (BeginsLine bytes.now) }
    ensures place { IfOk result (λ to. (next ≤ to) × (to ≤ length bytes.now)
        × (reader.new.count + next ≤ reader.old.count + 1 + to)) }
{
    let word = second_word(bytes, words);
    match head_name(&reader.map, &reader.heading.chars, word, name) {
        Err(kind) => Err(kind),
        Ok(false) => take_named_net(reader, bytes, words, line, next, None),
        Ok(true) => take_named_net(reader, bytes, words, line, next, Some(name.as_slice())),
    }
}

/// Takes a line after the header, and a net with its head, and says where the next line begins.
fn take_body_line(
    name: &mut Vec<u8>,
    reader: &mut Reader,
    bytes: &[u8],
    words: &[Span],
    line: Span,
    next: usize,
) -> Result<usize, SpefKind>
    requires headed { 14 ≤ reader.old.headed }
    requires whole { IsWhole reader.old }
    requires few { reader.old.count < 2 ^ 28 }
    requires line { IsLine bytes.now line next (words_at bytes.now words.now) }
    requires place { (next ≤ length bytes.now) × (length bytes.now ≤ 2 ^ 28) }
    ensures goes { GoesTo bytes.now next result (state_of reader.old) (state_of reader.new)
        (words_at bytes.now words.now) }
    ensures whole { OnOk result (IsWhole reader.new) }
    ensures spans { KeepsSpans bytes.now next result reader.old reader.new (words_at bytes.now words.now) }
    ensures begins { IfOk result (BeginsLine bytes.now) }
    ensures place { IfOk result (λ to. (next ≤ to) × (to ≤ length bytes.now)
        × (reader.new.count + next ≤ reader.old.count + 1 + to)) }
{
    match keyword_of(first_word(bytes, words)) {
        Keyword::Map => {
            reader.region = Region::InMap;
            reader.count += 1;
            Ok(next)
        }
        Keyword::Passed => {
            reader.region = Region::InPassed;
            reader.count += 1;
            Ok(next)
        }
        Keyword::Net => take_net(name, reader, bytes, words, line, next),
        Keyword::Foreign => Err(SpefKind::Unsupported),
        Keyword::Nothing => match take_other_line(name, reader, bytes, words) {
            Err(kind) => Err(kind),
            Ok(()) => Ok(next),
        },
    }
}

/// Takes the words of a line, and a net with its head, and says where the next line begins.
fn take_words(
    name: &mut Vec<u8>,
    reader: &mut Reader,
    bytes: &[u8],
    words: &[Span],
    line: Span,
    next: usize,
) -> Result<usize, SpefKind>
    requires whole { IsWhole reader.old }
    requires few { reader.old.count < 2 ^ 28 }
    requires line { IsLine bytes.now line next (words_at bytes.now words.now) }
    requires place { (next ≤ length bytes.now) × (length bytes.now ≤ 2 ^ 28) }
    ensures goes { GoesTo bytes.now next result (state_of reader.old) (state_of reader.new)
        (words_at bytes.now words.now) }
    ensures whole { OnOk result (IsWhole reader.new) }
    ensures spans { KeepsSpans bytes.now next result reader.old reader.new (words_at bytes.now words.now) }
    ensures begins { IfOk result (BeginsLine bytes.now) }
    ensures place { IfOk result (λ to. (next ≤ to) × (to ≤ length bytes.now)
        × (reader.new.count + next ≤ reader.old.count + 1 + to)) }
{
    if reader.headed >= 14 {
        return take_body_line(name, reader, bytes, words, line, next);
    }
    match take_header_line(reader, bytes, words) {
        Err(kind) => Err(kind),
        Ok(()) => Ok(next),
    }
}

/// Takes a line, and a net with its head, and says where the next line begins. The lists are to hold a name and the
/// line's words.
pub(crate) fn take_line(
    name: &mut Vec<u8>,
    reader: &mut Reader,
    bytes: &[u8],
    line: Span,
    next: usize,
    found: &mut Vec<Span>,
) -> Result<usize, SpefKind>
    requires line { IsLine bytes.now line next (words (part_at bytes.now line)) }
    requires whole { IsWhole reader.old }
    requires few { reader.old.count < 2 ^ 28 }
    requires place { (next ≤ length bytes.now) × (length bytes.now ≤ 2 ^ 28) }
    ensures goes { GoesTo bytes.now next result (state_of reader.old) (state_of reader.new)
        (words (part_at bytes.now line)) }
    ensures whole { OnOk result (IsWhole reader.new) }
    ensures spans { KeepsSpans bytes.now next result reader.old reader.new (words (part_at bytes.now line)) }
    ensures begins { IfOk result (BeginsLine bytes.now) }
    ensures place { IfOk result (λ to. (next ≤ to) × (to ≤ length bytes.now)
        × (reader.new.count + next ≤ reader.old.count + 1 + to)) }
{
    match words_of(bytes, line, found) {
        Err(_) => Err(SpefKind::Memory),
        Ok(()) => take_words(name, reader, bytes, found.as_slice(), line, next),
    }
}
