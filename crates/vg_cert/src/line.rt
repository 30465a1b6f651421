//! What each line writes.

ghost use Rattle.std.specs.Prelude.{◌≡◌, ◌≤◌, ◌<◌, ◌^◌, not, ⊤, None, length, IfSome, option_map, unsigned_abs, true, false, MatchOption};
ghost use Rattle.std.specs.Option.{option_or};
ghost use Rattle.std.specs.Str.{bytes_eq};
ghost use Rattle.vg_num.specs.Number.{whole_of};
ghost use Rattle.vg_scan.specs.declared.name.NetNames.{NetNames as Names};
ghost use Rattle.vg_cert.specs.declared.fault.CertKind.TheVariants.{Number as NumberKind};
ghost use Rattle.vg_cert.specs.Fits.{IsEntry, IsTime};
ghost use Rattle.vg_cert.specs.Lines.{Line, words, word as word_of, begins_with, is_no_count, count_in, number_in, number_fault};
ghost use Rattle.vg_cert.specs.Names.{node_text, cell_named as cell_of_word};
ghost use Rattle.vg_cert.specs.Roles.{heading, net as net_role, slack as slack_role, cells as cells_role, end as end_role, node as node_role, even_count, odd_count};
ghost use Rattle.vg_cert.specs.Faults.{fault_of, when, node_in, pair_in, load_fault};
ghost use Rattle.vg_cert.specs.Denoted.{slack_in, placed_in};
ghost use Rattle.vg_cert.specs.Readings.{Judges, AreCounts, NodesDiffer, is_unordered, count_fault, counts_fault, fault_after_pair, fault_from_node};

use crate::fault::CertKind;
use crate::names::{cell_named, is_node_text, node_named};
use crate::words::{four_words, one_word, three_words, two_words};
use elmore::Pair;
use vg_num::{Memory, NumFault, read_whole};
use vg_scan::{Name, NetNames, NodeName};

/// The most lines that a count announces.
const MOST_LINES: i128 = 268_435_456;

/// The greatest load of a pair (aF).
const MOST_LOAD: i128 = 100_000_000_000;

fn is_word(word: &[u8], other: &[u8]) -> bool
    ensures { result ≡ bytes_eq word.now other.now }
{
    word == other
}

/// What follows the word with which a line of two words begins. `None`: it is no such line.
fn after_word<'a>(line: &'a [u8], word: &[u8]) -> Option<&'a [u8]>
    ensures { MatchOption result (begins_with word.now 2 (words line.now) ≡ false) (λ found.
        (begins_with word.now 2 (words line.now) ≡ true) × (found.now ≡ word_of (words line.now) 1)) }
{
    match two_words(line) {
        Some((first, second)) if is_word(first, word) => Some(second),
        _ => None,
    }
}

/// `vgcert 1`
pub(crate) fn heading_line(line: &[u8]) -> Result<(), CertKind>
    ensures { (names : Names) (head : Line)
        → Judges result (fault_of names head heading None (words line.now)) (λ _. ⊤) }
{
    let Some(version) = after_word(line, b"vgcert") else {
        return Err(CertKind::Form);
    };
    if !is_word(version, b"1") {
        return Err(CertKind::Form);
    }
    Ok(())
}

/// `net NAME`
pub(crate) fn net_line(line: &[u8], names: &NetNames) -> Result<(), CertKind>
    ensures { (head : Line) → Judges result (fault_of names.now head net_role None (words line.now)) (λ _. ⊤) }
{
    let Some(name) = after_word(line, b"net") else {
        return Err(CertKind::Form);
    };
    if !is_word(name, names.net.as_bytes()) {
        return Err(CertKind::Node);
    }
    Ok(())
}

/// A whole number.
fn number_of(word: &[u8]) -> Result<i128, CertKind>
    ensures { Judges result (option_map NumberKind (number_fault word.now)) (λ z. (z ≡ number_in word.now) × IsTime z) }
{
    match read_whole(word) {
        Ok(number) => Ok(number),
        Err(fault) => Err(CertKind::Number(fault)),
    }
}

/// `slack S`
pub(crate) fn slack_line(line: &[u8]) -> Result<Option<i128>, CertKind>
    ensures { (names : Names) (head : Line)
        → Judges result (fault_of names head slack_role None (words line.now)) (λ slack.
        (slack ≡ slack_in (words line.now)) × IfSome slack IsTime) }
{
    let Some(slack) = after_word(line, b"slack") else {
        return Err(CertKind::Form);
    };
    if is_word(slack, b"none") {
        return Ok(None);
    }
    let slack = number_of(slack)?;
    Ok(Some(slack))
}

/// Whether a word is a number, and no number of lines.
fn is_no_count(word: &[u8]) -> bool
    ensures { result ≡ is_no_count (whole_of word.now) }
{
    match read_whole(word) {
        Ok(count) => count < 0 || count > MOST_LINES,
        Err(fault) => fault == NumFault::TooLarge,
    }
}

/// A number of lines.
fn count_of(word: &[u8]) -> Result<usize, CertKind>
    ensures { Judges result (count_fault (whole_of word.now)) (λ n. (n ≡ count_in word.now) × (n ≤ 2 ^ 28)) }
{
    if is_no_count(word) {
        return Err(CertKind::Form);
    }
    let count = number_of(word)?;
    Ok(count as usize)
}

/// Two numbers of lines.
fn counts_of(even: &[u8], odd: &[u8]) -> Result<(usize, usize), CertKind>
    ensures { Judges result (counts_fault (whole_of even.now) (whole_of odd.now)) (AreCounts even.now odd.now) }
{
    if is_no_count(even) || is_no_count(odd) {
        return Err(CertKind::Form);
    }
    let even = number_of(even)?;
    let odd = number_of(odd)?;
    Ok((even as usize, odd as usize))
}

/// `cells N`
pub(crate) fn cells_line(line: &[u8]) -> Result<usize, CertKind>
    ensures { (names : Names) (head : Line)
        → Judges result (fault_of names head cells_role None (words line.now)) (λ n.
        (n ≡ count_in (word_of (words line.now) 1)) × (n ≤ 2 ^ 28)) }
{
    let Some(count) = after_word(line, b"cells") else {
        return Err(CertKind::Form);
    };
    let count = count_of(count)?;
    Ok(count)
}

/// `at NODE CELL`, where the nodes before the next one are behind. The list is to hold a node's name.
pub(crate) fn at_line(
    line: &[u8],
    names: &NetNames,
    next: usize,
    text: &mut Vec<u8>,
) -> Result<(usize, u32), CertKind>
    requires nodes { NodesDiffer names.now }
    requires next { next ≤ length names.now.nodes }
    requires cells { length names.now.cells ≤ 2 ^ 32 }
    ensures { Judges result (fault_from_node names.now next (words line.now)) (λ found.
        (found ≡ placed_in names.now (words line.now)) × (next ≤ found.0) × (found.0 < length names.now.nodes)
        × (found.1 < length names.now.cells)) }
{
    let Some((at, node, cell)) = three_words(line) else {
        return Err(CertKind::Form);
    };
    if !is_word(at, b"at") {
        return Err(CertKind::Form);
    }
    let found = match node_named(names.nodes.as_slice(), next, node, text) {
        Err(Memory) => return Err(CertKind::Memory),
        Ok(found) => found,
    };
    let Some(node) = found else {
        return Err(CertKind::Node);
    };
    let Some(cell) = cell_named(names.cells.as_slice(), cell) else {
        return Err(CertKind::Cell);
    };
    if node < next {
        return Err(CertKind::Order);
    }
    Ok((node, cell as u32))
}

/// `node NODE A B` of this node. The list is to hold its name.
pub(crate) fn node_line(
    line: &[u8],
    names: &NetNames,
    v: usize,
    text: &mut Vec<u8>,
) -> Result<(usize, usize), CertKind>
    requires { v < length names.now.nodes }
    ensures { (head : Line)
        → Judges result (fault_of names.now head (node_role v) None (words line.now))
        (AreCounts (word_of (words line.now) 2) (word_of (words line.now) 3)) }
{
    let Some((first, name, even, odd)) = four_words(line) else {
        return Err(CertKind::Form);
    };
    if !is_word(first, b"node") {
        return Err(CertKind::Form);
    }
    let counts = counts_of(even, odd)?;
    match is_node_text(&names.nodes.as_slice()[v], name, text) {
        Ok(true) => Ok(counts),
        Ok(false) => Err(CertKind::Node),
        Err(Memory) => Err(CertKind::Memory),
    }
}

/// A load.
fn load_of(word: &[u8]) -> Result<u64, CertKind>
    ensures { Judges result (option_map NumberKind (load_fault (whole_of word.now))) (λ c.
        (c ≡ unsigned_abs (number_in word.now)) × (c ≤ 10 ^ 11)) }
{
    let load = number_of(word)?;
    if load < 0 {
        return Err(CertKind::Number(NumFault::Negative));
    }
    if load > MOST_LOAD {
        return Err(CertKind::Number(NumFault::TooLarge));
    }
    Ok(load as u64)
}

/// Whether a pair lies above the last one of its list, if there is one.
fn is_above(pair: Pair, last: Option<Pair>) -> bool
    ensures { result ≡ not (is_unordered last pair) }
{
    match last {
        None => true,
        Some(last) => last.q < pair.q && last.c < pair.c,
    }
}

/// `Q C`, after the last pair of its list.
pub(crate) fn pair_line(line: &[u8], last: Option<Pair>) -> Result<Pair, CertKind>
    ensures { Judges result (fault_after_pair last (words line.now)) (λ pair. (pair ≡ pair_in (words line.now))
        × IsEntry pair × (is_unordered last pair ≡ false)) }
{
    let Some((q, c)) = two_words(line) else {
        return Err(CertKind::Form);
    };
    let q = number_of(q)?;
    let c = load_of(c)?;
    let pair = Pair { q, c };
    if !is_above(pair, last) {
        return Err(CertKind::Order);
    }
    Ok(pair)
}

/// `end`
pub(crate) fn end_line(line: &[u8]) -> Result<(), CertKind>
    ensures { (names : Names) (head : Line)
        → Judges result (fault_of names head end_role None (words line.now)) (λ _. ⊤) }
{
    let Some(word) = one_word(line) else {
        return Err(CertKind::Form);
    };
    if !is_word(word, b"end") {
        return Err(CertKind::Form);
    }
    Ok(())
}
