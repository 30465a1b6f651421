//! One line: its comment, its words, and the row that it states.

ghost use Rattle.std.specs.Prelude.{◌≡◌, ℤ, IfOk};
ghost use Rattle.std.specs.List.{before_first, position};
ghost use Rattle.std.specs.Str.{bytes_eq};
ghost use Rattle.vg_scan.specs.Spans.{IsIn, part_at, words_at};
ghost use Rattle.vg_scan.specs.declared.name.NodeName.{NodeName};
ghost use Rattle.vg_cons.specs.Lines.{is_hash, format_of, heading_of};
ghost use Rattle.vg_cons.specs.Statements.{statement_of, default_line, timed, want_line, drive_line, load_line, block_line, allow_line, box_line, point_in, Point, is_of_second, of_one, required, arrival};
ghost use Rattle.vg_cons.specs.Views.{Agrees, as_statement};

use crate::boxes::Point;
use crate::fault::ConsKind;
use crate::format::Format;
use crate::names::{inner_of, pin_of, port_of, read_coordinate, read_thousandths, read_time};
use crate::row::Row;
use std::alloc::Global;
use vg_num::Memory;
use vg_scan::{Name, NodeName, Span, text_at};

fn hash_at(line: &[u8]) -> Option<usize>
    ensures { result ≡ position is_hash line.now }
{
    line.iter().position(|byte| *byte == b'#')
}

/// The line without its comment.
pub(crate) fn without_comment(bytes: &[u8], line: Span) -> Span
    requires { IsIn bytes.now line }
    ensures cut { part_at bytes.now result ≡ before_first is_hash (part_at bytes.now line) }
    ensures within { IsIn bytes.now result }
{
    match hash_at(&bytes[line.from..line.to]) {
        None => line,
        Some(at) => Span {
            from: line.from,
            to: line.from + at,
        },
    }
}

fn is_word(bytes: &[u8], span: Span, word: &[u8]) -> bool
    ensures { result ≡ bytes_eq (part_at bytes.now span) word.now }
{
    text_at(bytes, span) == word
}

fn format_of(bytes: &[u8], version: Span) -> Option<Format>
    ensures { result ≡ format_of (part_at bytes.now version) }
{
    if is_word(bytes, version, b"1") {
        Some(Format::First)
    } else if is_word(bytes, version, b"2") {
        Some(Format::Second)
    } else {
        None
    }
}

/// The version that the words name as a heading.
pub(crate) fn heading_of(bytes: &[u8], words: &[Span]) -> Option<Format>
    ensures { result ≡ heading_of (words_at bytes.now words.now) }
{
    let [word, version] = words else {
        return None;
    };
    if !is_word(bytes, *word, b"vgcons") {
        return None;
    }
    format_of(bytes, *version)
}

/// Whether only version 2 has a line of these words.
pub(crate) fn is_of_second(bytes: &[u8], words: &[Span]) -> bool
    ensures { result ≡ is_of_second (words_at bytes.now words.now) }
{
    let [word, ..] = words else {
        return false;
    };
    is_word(bytes, *word, b"allow") || is_word(bytes, *word, b"block_box")
}

/// The row that the words of a line state, in version 2.
///
/// Answers `Word` and `Number` where they are none, in this order, and `Memory` where there is no room for a name.
#[tactic(auto, unfolding(crate::specs::Statements::statement_of))]
pub(crate) fn read_row(alloc: Global, bytes: &[u8], words: &[Span]) -> Result<Row, ConsKind>
    ensures { Agrees as_statement result (statement_of (words_at bytes.now words.now)) }
{
    let [word, rest @ ..] = words else {
        return Err(ConsKind::Word);
    };
    let word = *word;
    if is_word(bytes, word, b"default") {
        return read_default(bytes, rest);
    }
    if is_word(bytes, word, b"required") {
        return read_required(alloc, bytes, rest);
    }
    if is_word(bytes, word, b"arrival") {
        return read_arrival(alloc, bytes, rest);
    }
    if is_word(bytes, word, b"want") {
        return read_want(alloc, bytes, rest);
    }
    if is_word(bytes, word, b"drive") {
        return read_drive(alloc, bytes, rest);
    }
    if is_word(bytes, word, b"load") {
        return read_load(alloc, bytes, rest);
    }
    if is_word(bytes, word, b"block") {
        return read_block(alloc, bytes, rest);
    }
    if is_word(bytes, word, b"allow") {
        return read_allow(alloc, bytes, rest);
    }
    if is_word(bytes, word, b"block_box") {
        return read_box(bytes, rest);
    }
    Err(ConsKind::Word)
}

fn read_default(bytes: &[u8], words: &[Span]) -> Result<Row, ConsKind>
    ensures { Agrees as_statement result (default_line (words_at bytes.now words.now)) }
{
    let [word, time] = words else {
        return Err(ConsKind::Word);
    };
    if !is_word(bytes, *word, b"required") {
        return Err(ConsKind::Word);
    }
    let time = read_time(text_at(bytes, *time))?;
    Ok(Row::Default(time))
}

fn read_timed(alloc: Global, bytes: &[u8], words: &[Span]) -> Result<(NodeName, i128), ConsKind>
    ensures { Agrees (λ (row : NodeName × ℤ). row) result (timed (words_at bytes.now words.now)) }
{
    let [pin, time] = words else {
        return Err(ConsKind::Word);
    };
    let pin = pin_of(alloc, text_at(bytes, *pin))?;
    let time = read_time(text_at(bytes, *time))?;
    Ok((pin, time))
}

fn read_required(alloc: Global, bytes: &[u8], words: &[Span]) -> Result<Row, ConsKind>
    ensures { Agrees as_statement result (of_one required (timed (words_at bytes.now words.now))) }
{
    let (pin, time) = read_timed(alloc, bytes, words)?;
    Ok(Row::Required(pin, time))
}

fn read_arrival(alloc: Global, bytes: &[u8], words: &[Span]) -> Result<Row, ConsKind>
    ensures { Agrees as_statement result (of_one arrival (timed (words_at bytes.now words.now))) }
{
    let (pin, time) = read_timed(alloc, bytes, words)?;
    Ok(Row::Arrival(pin, time))
}

fn read_want(alloc: Global, bytes: &[u8], words: &[Span]) -> Result<Row, ConsKind>
    ensures { Agrees as_statement result (want_line (words_at bytes.now words.now)) }
{
    let [pin, word] = words else {
        return Err(ConsKind::Word);
    };
    if !is_word(bytes, *word, b"inverted") {
        return Err(ConsKind::Word);
    }
    let pin = pin_of(alloc, text_at(bytes, *pin))?;
    Ok(Row::Want(pin))
}

fn read_drive(alloc: Global, bytes: &[u8], words: &[Span]) -> Result<Row, ConsKind>
    ensures { Agrees as_statement result (drive_line (words_at bytes.now words.now)) }
{
    let [port, resistance, delay] = words else {
        return Err(ConsKind::Word);
    };
    let port = port_of(alloc, text_at(bytes, *port))?;
    let resistance = read_thousandths(text_at(bytes, *resistance))?;
    let delay = read_time(text_at(bytes, *delay))?;
    Ok(Row::Drive(port, (resistance, delay)))
}

fn read_load(alloc: Global, bytes: &[u8], words: &[Span]) -> Result<Row, ConsKind>
    ensures { Agrees as_statement result (load_line (words_at bytes.now words.now)) }
{
    let [port, load] = words else {
        return Err(ConsKind::Word);
    };
    let port = port_of(alloc, text_at(bytes, *port))?;
    let load = read_thousandths(text_at(bytes, *load))?;
    Ok(Row::Load(port, load))
}

fn read_block(alloc: Global, bytes: &[u8], words: &[Span]) -> Result<Row, ConsKind>
    ensures { Agrees as_statement result (block_line (words_at bytes.now words.now)) }
{
    let [node] = words else {
        return Err(ConsKind::Word);
    };
    let node = inner_of(alloc, text_at(bytes, *node))?;
    Ok(Row::Block(node))
}

/// The words as names, as they stand.
fn names_of(alloc: Global, bytes: &[u8], words: &[Span]) -> Result<Vec<Name>, Memory>
    ensures { IfOk result (λ names. names.items ≡ words_at bytes.now words.now) }
{
    let mut names = Vec::new(alloc);
    'word: for word in words {
        names.push(Name::from_bytes(alloc, text_at(bytes, *word))?)?;
    }
    Ok(names)
}

fn read_allow(alloc: Global, bytes: &[u8], words: &[Span]) -> Result<Row, ConsKind>
    ensures { Agrees as_statement result (allow_line (words_at bytes.now words.now)) }
{
    let [node, cells @ ..] = words else {
        return Err(ConsKind::Word);
    };
    if cells.is_empty() {
        return Err(ConsKind::Word);
    }
    let node = inner_of(alloc, text_at(bytes, *node))?;
    match names_of(alloc, bytes, cells) {
        Ok(cells) => Ok(Row::Allow(node, cells)),
        Err(Memory) => Err(ConsKind::Memory),
    }
}

fn read_point(bytes: &[u8], x: Span, y: Span) -> Result<Point, ConsKind>
    ensures { result ≡ point_in (part_at bytes.now x) (part_at bytes.now y) }
{
    let x = read_coordinate(text_at(bytes, x))?;
    let y = read_coordinate(text_at(bytes, y))?;
    Ok((x, y))
}

fn read_box(bytes: &[u8], words: &[Span]) -> Result<Row, ConsKind>
    ensures { Agrees as_statement result (box_line (words_at bytes.now words.now)) }
{
    let [x1, y1, x2, y2] = words else {
        return Err(ConsKind::Word);
    };
    let one = read_point(bytes, *x1, *y1)?;
    let other = read_point(bytes, *x2, *y2)?;
    Ok(Row::BlockBox((one, other)))
}
