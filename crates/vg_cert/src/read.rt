//! The lines of a certificate's text, one after another.

ghost use Rattle.std.specs.Prelude.{◌≡◌, ℕ, suc, ◌+◌, ◌<◌, ◌≤◌, ◌^◌, ⊤, true, false, None, length, slice_index_or, get_or, drop, OnOk, IfOk, IfErr, IfSome, MatchBool, List, Bool, [], ◌∷◌, ◌⊎◌};
ghost use Rattle.vg_cert.specs.Fits.{Fits, IsList, IsTime};
ghost use Rattle.vg_cert.specs.Lines.{count_in, word as word_of, lines as lines_in};
ghost use Rattle.vg_cert.specs.Names.{AreNamesOf};
ghost use Rattle.vg_cert.specs.Roles.{Role, heading as heading_role, net as net_role, slack as slack_role, cells as cells_role, at as at_role, node as node_role, end as end_role, line_before};
ghost use Rattle.vg_cert.specs.Faults.{is_none, IsFaultless, IsFaultIn};
ghost use Rattle.vg_cert.specs.declared.fault.CertKind.TheVariants.{Memory as NoRoom};
ghost use Rattle.vg_cert.specs.Denoted.{Denotes, slack_in};
ghost use Rattle.vg_cert.specs.Readings.{reading, IsUpTo, Reads, line_of, lines_of, role_of, roles_left, node_after, AreCellsDue, IsCell, ArePlacedBy, IsHead, IsPairDue, IsPair, IsListDue, pairs_from, AreCounts, AreSectionsDue, AreListsOf, AreLists, IsFaultOrMemory, section_size};

use crate::certificate::{Certificate, NodeLists};
use crate::fault::{CertFault, CertKind};
use crate::head::Head;
use crate::line::{
    at_line, cells_line, end_line, heading_line, net_line, node_line, pair_line, slack_line,
};
use crate::lines::{next_line, not_due};
use crate::place::Place;
use crate::source::Source;
use elmore::{Pair, Placement, Problem};
use std::alloc::Global;
use vg_num::{Memory, Row};
use vg_scan::NetNames;

/// The fewest bytes that a line of a list takes.
const LEAST_PAIR: usize = 4;

fn read_heading(source: &Source<'_>, place: &mut Place) -> Result<(), CertFault>
    requires up_to { IsUpTo (reading source.now) place.old }
    requires due { role_of (reading source.now) place.old.count ≡ heading_role }
    ensures { Reads result (reading source.now) place.old place.new 1 (λ _. ⊤) }
{
    let line = next_line(source.bytes, place)?;
    match heading_line(line) {
        Ok(()) => Ok(()),
        Err(kind) => Err(place.fault(kind)),
    }
}

fn read_net(source: &Source<'_>, place: &mut Place) -> Result<(), CertFault>
    requires up_to { IsUpTo (reading source.now) place.old }
    requires due { role_of (reading source.now) place.old.count ≡ net_role }
    ensures { Reads result (reading source.now) place.old place.new 1 (λ _. ⊤) }
{
    let line = next_line(source.bytes, place)?;
    match net_line(line, source.names) {
        Ok(()) => Ok(()),
        Err(kind) => Err(place.fault(kind)),
    }
}

fn read_slack(source: &Source<'_>, place: &mut Place) -> Result<Option<i128>, CertFault>
    requires up_to { IsUpTo (reading source.now) place.old }
    requires due { role_of (reading source.now) place.old.count ≡ slack_role }
    ensures { Reads result (reading source.now) place.old place.new 1 (λ slack.
        (slack ≡ slack_in (line_of (reading source.now) place.old.count)) × IfSome slack IsTime) }
{
    let line = next_line(source.bytes, place)?;
    match slack_line(line) {
        Ok(slack) => Ok(slack),
        Err(kind) => Err(place.fault(kind)),
    }
}

fn read_cell_count(source: &Source<'_>, place: &mut Place) -> Result<usize, CertFault>
    requires up_to { IsUpTo (reading source.now) place.old }
    requires due { role_of (reading source.now) place.old.count ≡ cells_role }
    ensures { Reads result (reading source.now) place.old place.new 1 (λ n.
        (n ≡ count_in (word_of (line_of (reading source.now) place.old.count) 1)) × (n ≤ 2 ^ 28)) }
{
    let line = next_line(source.bytes, place)?;
    match cells_line(line) {
        Ok(count) => Ok(count),
        Err(kind) => Err(place.fault(kind)),
    }
}

/// The four lines before the cells.
fn read_head(source: &Source<'_>, place: &mut Place) -> Result<Head, CertFault>
    requires up_to { IsUpTo (reading source.now) place.old }
    requires start { place.old.count ≡ 0 }
    ensures { Reads result (reading source.now) place.old place.new 4 (IsHead (reading source.now)) }
{
    read_heading(source, place)?;
    read_net(source, place)?;
    let slack = read_slack(source, place)?;
    let cells = read_cell_count(source, place)?;
    Ok(Head { slack, cells })
}

fn read_at(
    source: &Source<'_>,
    next: usize,
    place: &mut Place,
    text: &mut Vec<u8>,
) -> Result<(usize, u32), CertFault>
    requires up_to { IsUpTo (reading source.now) place.old }
    requires due { role_of (reading source.now) place.old.count ≡ at_role }
    requires slack { is_none (line_of (reading source.now) 2) ≡ false }
    requires next { node_after (reading source.now).names
        (line_before (reading source.now).problem (lines_of (reading source.now)) place.old.count at_role) ≡ next }
    requires within { next ≤ length (reading source.now).names.nodes }
    requires names { AreNamesOf (reading source.now).problem (reading source.now).names }
    ensures { Reads result (reading source.now) place.old place.new 1
        (IsCell (reading source.now).names next (line_of (reading source.now) place.old.count)) }
{
    let line = next_line(source.bytes, place)?;
    match at_line(line, source.names, next, text) {
        Ok(found) => Ok(found),
        Err(kind) => Err(place.fault(kind)),
    }
}

/// So many lines of cells, each of which is put into the list.
fn read_cells(
    source: &Source<'_>,
    count: usize,
    place: &mut Place,
    cells: &mut Vec<Option<u32>>,
    text: &mut Vec<u8>,
) -> Result<(), CertFault>
    requires up_to { IsUpTo (reading source.now) place.old }
    requires due { AreCellsDue (reading source.now) place.old.count count }
    requires names { AreNamesOf (reading source.now).problem (reading source.now).names }
    requires one_each { length cells.old.items ≡ length (reading source.now).names.nodes }
    requires no_cell { (v : ℕ) → slice_index_or cells.old.items v None ≡ None }
    ensures lines { Reads result (reading source.now) place.old place.new count (λ _. ⊤) }
    ensures cells { OnOk result (ArePlacedBy (reading source.now) place.old.count count cells.new.items) }
{
    let mut next = 0usize;
    'cell: for _ in 0..count {
        let (node, cell) = read_at(source, next, place, text)?;
        cells[node] = Some(cell);
        next = node + 1;
    }
    Ok(())
}

/// Whether cells are announced where there is no slack.
fn is_needless(head: Head) -> bool
    ensures { MatchBool result ((head.slack ≡ None) × (0 < head.cells)) (head.slack ≡ None → head.cells ≡ 0) }
{
    match head.slack {
        None => head.cells > 0,
        Some(_) => false,
    }
}

/// The placement. Where there is no slack, a cell is none that is due.
fn read_placement(
    alloc: Global,
    source: &Source<'_>,
    head: Head,
    place: &mut Place,
    text: &mut Vec<u8>,
) -> Result<Placement, CertFault>
    requires up_to { IsUpTo (reading source.now) place.old }
    requires start { place.old.count ≡ 4 }
    requires head { IsHead (reading source.now) head }
    requires names { AreNamesOf (reading source.now).problem (reading source.now).names }
    ensures lines { Reads result (reading source.now) place.old place.new head.cells (λ placement.
        ArePlacedBy (reading source.now) 4 head.cells placement.cells) }
    ensures needless { IfOk result (λ _. head.slack ≡ None → head.cells ≡ 0) }
{
    if is_needless(head) {
        return Err(not_due(&source.bytes[place.at..], *place));
    }
    let Ok(mut cells) = vec![in alloc; None; source.names.nodes.len()] else {
        return Err(place.fault(CertKind::Memory));
    };
    read_cells(source, head.cells, place, &mut cells, text)?;
    Ok(Placement {
        cells: Row::from_vec(cells),
    })
}

fn read_pair(source: &Source<'_>, last: Option<Pair>, place: &mut Place) -> Result<Pair, CertFault>
    requires up_to { IsUpTo (reading source.now) place.old }
    requires due { (role : Role) × IsPairDue (reading source.now) place.old.count last role }
    ensures { Reads result (reading source.now) place.old place.new 1
        (IsPair last (line_of (reading source.now) place.old.count)) }
{
    let line = next_line(source.bytes, place)?;
    match pair_line(line, last) {
        Ok(pair) => Ok(pair),
        Err(kind) => Err(place.fault(kind)),
    }
}

/// A list, with no more room at first than its pairs could take of the text.
fn list_for(alloc: Global, left: usize, count: usize) -> Result<Vec<Pair>, Memory>
    ensures { IfOk result (λ list. list.items ≡ []) }
{
    let list = Vec::with_capacity(alloc, count.min(left / LEAST_PAIR))?;
    Ok(list)
}

/// So many lines of a list.
fn read_list(
    alloc: Global,
    source: &Source<'_>,
    count: usize,
    place: &mut Place,
) -> Result<Vec<Pair>, CertFault>
    requires up_to { IsUpTo (reading source.now) place.old }
    requires few { count ≤ 2 ^ 28 }
    requires due { (role : Role) × IsListDue (reading source.now) place.old.count count role }
    ensures { Reads result (reading source.now) place.old place.new count (λ list.
        (list.items ≡ pairs_from (reading source.now) place.old.count count) × IsList list.items) }
{
    let Ok(mut list) = list_for(alloc, source.bytes.len() - place.at, count) else {
        return Err(place.fault(CertKind::Memory));
    };
    let mut last = None;
    'pair: for _ in 0..count {
        let pair = read_pair(source, last, place)?;
        if list.push(pair).is_err() {
            return Err(place.fault(CertKind::Memory));
        }
        last = Some(pair);
    }
    Ok(list)
}

fn read_node(
    source: &Source<'_>,
    v: usize,
    place: &mut Place,
    text: &mut Vec<u8>,
) -> Result<(usize, usize), CertFault>
    requires up_to { IsUpTo (reading source.now) place.old }
    requires due { role_of (reading source.now) place.old.count ≡ node_role v }
    requires node { v < length (reading source.now).names.nodes }
    ensures { Reads result (reading source.now) place.old place.new 1
        (AreCounts (word_of (line_of (reading source.now) place.old.count) 2)
        (word_of (line_of (reading source.now) place.old.count) 3)) }
{
    let line = next_line(source.bytes, place)?;
    match node_line(line, source.names, v, text) {
        Ok(counts) => Ok(counts),
        Err(kind) => Err(place.fault(kind)),
    }
}

/// The lists of a node that is live.
fn read_section(
    alloc: Global,
    source: &Source<'_>,
    v: usize,
    place: &mut Place,
    text: &mut Vec<u8>,
) -> Result<NodeLists, CertFault>
    requires up_to { IsUpTo (reading source.now) place.old }
    requires due { (live : List Bool) × AreSectionsDue (reading source.now) place.old.count v (true ∷ live) }
    requires node { v < length (reading source.now).names.nodes }
    ensures { Reads result (reading source.now) place.old place.new
        (section_size (reading source.now) place.old.count true)
        (AreListsOf (reading source.now) place.old.count true) }
{
    let (evens, odds) = read_node(source, v, place, text)?;
    let even = read_list(alloc, source, evens, place)?;
    let odd = read_list(alloc, source, odds, place)?;
    Ok(NodeLists { even, odd })
}

/// The lists of a node: none where it is not live.
fn read_lists_of(
    alloc: Global,
    source: &Source<'_>,
    live: bool,
    v: usize,
    place: &mut Place,
    text: &mut Vec<u8>,
) -> Result<NodeLists, CertFault>
    requires up_to { IsUpTo (reading source.now) place.old }
    requires due { (rest : List Bool) × AreSectionsDue (reading source.now) place.old.count v (live ∷ rest) }
    requires node { v < length (reading source.now).names.nodes }
    ensures { Reads result (reading source.now) place.old place.new
        (section_size (reading source.now) place.old.count live)
        (AreListsOf (reading source.now) place.old.count live) }
{
    if live {
        return read_section(alloc, source, v, place, text);
    }
    Ok(NodeLists {
        even: Vec::new(alloc),
        odd: Vec::new(alloc),
    })
}

/// The lists of all nodes.
fn read_lists(
    alloc: Global,
    source: &Source<'_>,
    place: &mut Place,
    text: &mut Vec<u8>,
) -> Result<Vec<NodeLists>, CertFault>
    requires up_to { IsUpTo (reading source.now) place.old }
    requires due { AreSectionsDue (reading source.now) place.old.count 0 (reading source.now).problem.live }
    requires each { length (reading source.now).problem.live ≡ length (reading source.now).names.nodes }
    ensures fault { IfErr result (IsFaultOrMemory (reading source.now)) }
    ensures up_to { IfOk result (λ _. IsUpTo (reading source.now) place.new) }
    ensures lists { IfOk result (λ lists. AreLists (reading source.now) place.old.count place.new.count lists.items) }
{
    let live = source.problem.live.as_slice();
    let mut lists = Vec::new(alloc);
    'node: for v in 0..live.len() {
        let found = read_lists_of(alloc, source, live[v], v, place, text)?;
        if lists.push(found).is_err() {
            return Err(place.fault(CertKind::Memory));
        }
    }
    Ok(lists)
}

fn read_last(source: &Source<'_>, place: &mut Place) -> Result<(), CertFault>
    requires up_to { IsUpTo (reading source.now) place.old }
    requires due { role_of (reading source.now) place.old.count ≡ end_role }
    ensures { Reads result (reading source.now) place.old place.new 1 (λ _. ⊤) }
{
    let line = next_line(source.bytes, place)?;
    match end_line(line) {
        Ok(()) => Ok(()),
        Err(kind) => Err(place.fault(kind)),
    }
}

/// `end`, and nothing after it.
fn read_end(source: &Source<'_>, place: &mut Place) -> Result<(), CertFault>
    requires up_to { IsUpTo (reading source.now) place.old }
    requires due { roles_left (reading source.now) place.old.count ≡ end_role ∷ [] }
    ensures fault { IfErr result (IsFaultOrMemory (reading source.now)) }
    ensures faultless { OnOk result
        (IsFaultless (reading source.now).problem (reading source.now).names (reading source.now).text) }
{
    read_last(source, place)?;
    if place.at < source.bytes.len() {
        return Err(place.next_fault(CertKind::Form));
    }
    Ok(())
}

/// The certificate that the lines of a text write.
fn read_lines(alloc: Global, source: &Source<'_>) -> Result<Certificate, CertFault>
    requires few { length (reading source.now).text ≤ 2 ^ 28 }
    requires names { AreNamesOf (reading source.now).problem (reading source.now).names }
    ensures faultless { IfOk result (λ _.
        IsFaultless (reading source.now).problem (reading source.now).names (reading source.now).text) }
    ensures denotes { IfOk result
        (Denotes (reading source.now).problem (reading source.now).names (lines_of (reading source.now))) }
    ensures fits { IfOk result (Fits (reading source.now).problem) }
    ensures fault { IfErr result (IsFaultOrMemory (reading source.now)) }
{
    let mut place = Place::start();
    let mut text = Vec::new(alloc);
    let head = read_head(source, &mut place)?;
    let placement = read_placement(alloc, source, head, &mut place, &mut text)?;
    let lists = read_lists(alloc, source, &mut place, &mut text)?;
    read_end(source, &mut place)?;
    Ok(Certificate {
        slack: head.slack,
        placement,
        lists,
    })
}

/// The certificate of a problem that a text writes, or the text's first fault with the number of its line. That a line
/// is missing is told at the last one.
///
/// Answers `Memory` where there is no room, with the number of the line at which it was wanted, or of the line before.
pub fn read_certificate(
    alloc: Global,
    bytes: &[u8],
    problem: &Problem,
    names: &NetNames,
) -> Result<Certificate, CertFault>
    requires few { length bytes.now ≤ 2 ^ 28 }
    requires names { AreNamesOf problem.now names.now }
    ensures faultless { IfOk result (λ _. IsFaultless problem.now names.now bytes.now) }
    ensures denotes { IfOk result (Denotes problem.now names.now (lines_in bytes.now)) }
    ensures fits { IfOk result (Fits problem.now) }
    ensures fault { IfErr result (λ fault. (fault.kind ≡ NoRoom) ⊎ IsFaultIn problem.now names.now bytes.now fault) }
{
    let source = Source {
        bytes,
        problem,
        names,
    };
    read_lines(alloc, &source)
}
