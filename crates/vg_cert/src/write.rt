//! A certificate's text.

ghost use Rattle.std.specs.Prelude.{◌≡◌, ℕ, ◌++◌, ◌∷◌, [], ◌<◌, ◌≤◌, ◌^◌, map, flat_map, codes, is_some, length, get_or, IfOk, OnOk, Some, None, false, slice_index_or};
ghost use Rattle.std.specs.Fmt.{decimal};
ghost use Rattle.std.specs.List.{count_by, range_with_len};
ghost use Rattle.vg_cert.specs.Names.{AreNamesOf, text_of_node};
ghost use Rattle.vg_cert.specs.Fits.{Fits};
ghost use Rattle.vg_cert.specs.Denoted.{both};
ghost use Rattle.vg_cert.specs.Written.{line_text, slack_word, net_line, slack_line, node_line, count_line, head_lines, cell_lines, pair_line, section_lines, node_lines, cells_part, lists_part, joined, text_in, text_of};

use crate::certificate::{Certificate, NodeLists};
use crate::growing::Growing;
use crate::names::print_node;
use elmore::{Pair, Problem};
use std::alloc::Global;
use std::mem;
use vg_num::{Memory, print_signed};
use vg_scan::NetNames;

fn write_bytes(bytes: &[u8], to: &mut Vec<u8>) -> Result<(), Memory>
    ensures { OnOk result (to.new.items ≡ to.old.items ++ bytes.now) }
{
    to.extend_from_slice(bytes)?;
    Ok(())
}

/// Appends a number of lines, or a load.
fn write_count(count: u64, to: &mut Vec<u8>) -> Result<(), Memory>
    ensures { OnOk result (to.new.items ≡ to.old.items ++ decimal count) }
{
    print_signed(count as i128, to)
}

/// `Q C`
fn write_pair(pair: Pair, to: &mut Vec<u8>) -> Result<(), Memory>
    ensures { OnOk result (to.new.items ≡ to.old.items ++ line_text (pair_line pair)) }
{
    print_signed(pair.q, to)?;
    write_bytes(b" ", to)?;
    write_count(pair.c, to)?;
    write_bytes(b"\n", to)
}

/// `Q C` for each pair
fn write_list(pairs: &[Pair], to: &mut Growing) -> Result<(), Memory>
    ensures { OnOk result (text_in to.new ≡ text_in to.old ++ flat_map (λ x. line_text (pair_line x)) pairs.now) }
{
    'pair: for pair in pairs {
        write_pair(*pair, &mut to.last)?;
        to.close_full()?;
    }
    Ok(())
}

/// `net NAME`
fn write_net(names: &NetNames, to: &mut Vec<u8>) -> Result<(), Memory>
    ensures { OnOk result (to.new.items ≡ to.old.items ++ line_text (net_line names.now)) }
{
    write_bytes(b"net ", to)?;
    write_bytes(names.net.as_bytes(), to)?;
    write_bytes(b"\n", to)
}

/// `slack S`
fn write_slack_line(slack: Option<i128>, to: &mut Vec<u8>) -> Result<(), Memory>
    ensures { OnOk result (to.new.items ≡ to.old.items ++ line_text (slack_line slack)) }
{
    write_bytes(b"slack ", to)?;
    write_slack(slack, to)?;
    write_bytes(b"\n", to)
}

/// `vgcert 1`, `net NAME` and `slack S`
fn write_head(names: &NetNames, slack: Option<i128>, to: &mut Vec<u8>) -> Result<(), Memory>
    ensures { OnOk result (to.new.items ≡ to.old.items ++ flat_map line_text (head_lines names.now slack)) }
{
    write_bytes(b"vgcert 1\n", to)?;
    write_net(names, to)?;
    write_slack_line(slack, to)?;
    Ok(())
}

/// A slack, or `none`
fn write_slack(slack: Option<i128>, to: &mut Vec<u8>) -> Result<(), Memory>
    ensures { OnOk result (to.new.items ≡ to.old.items ++ slack_word slack) }
{
    match slack {
        None => write_bytes(b"none", to),
        Some(slack) => print_signed(slack, to),
    }
}

/// How a node is written
fn write_name(names: &NetNames, v: usize, to: &mut Vec<u8>) -> Result<(), Memory>
    requires { v < length names.now.nodes }
    ensures { OnOk result (to.new.items ≡ to.old.items ++ text_of_node names.now.nodes v) }
{
    print_node(&names.nodes.as_slice()[v], to)
}

/// `at NODE CELL`, if the node has a cell
fn write_cell(names: &NetNames, v: usize, cell: Option<u32>, to: &mut Vec<u8>) -> Result<(), Memory>
    requires node { v < length names.now.nodes }
    requires cell { (b : ℕ) → cell ≡ Some b → b < length names.now.cells }
    ensures { OnOk result (to.new.items
        ≡ to.old.items ++ flat_map line_text (cell_lines names.now v cell)) }
{
    let Some(cell) = cell else {
        return Ok(());
    };
    write_bytes(b"at ", to)?;
    write_name(names, v, to)?;
    write_bytes(b" ", to)?;
    write_bytes(names.cells.as_slice()[cell as usize].as_bytes(), to)?;
    write_bytes(b"\n", to)
}

/// How many nodes have a cell.
fn count_cells(cells: &[Option<u32>]) -> u64
    ensures { result ≡ count_by is_some cells.now }
{
    let mut count = 0u64;
    'cell: for cell in cells {
        if cell.is_some() {
            count += 1;
        }
    }
    count
}

/// `A B` and the end of the line
fn write_counts(even: u64, odd: u64, to: &mut Vec<u8>) -> Result<(), Memory>
    ensures { OnOk result (to.new.items
        ≡ to.old.items ++ ((decimal even ++ 32 ∷ decimal odd) ++ 10 ∷ [])) }
{
    write_count(even, to)?;
    write_bytes(b" ", to)?;
    write_count(odd, to)?;
    write_bytes(b"\n", to)
}

/// `node NODE A B`
fn write_node(names: &NetNames, v: usize, lists: &NodeLists, to: &mut Vec<u8>) -> Result<(), Memory>
    requires { v < length names.now.nodes }
    ensures { OnOk result (to.new.items
        ≡ to.old.items ++ line_text (node_line names.now v (both lists.now))) }
{
    write_bytes(b"node ", to)?;
    write_name(names, v, to)?;
    write_bytes(b" ", to)?;
    write_counts(lists.even.len() as u64, lists.odd.len() as u64, to)
}

/// `node NODE A B`, and the lists
fn write_section(
    names: &NetNames,
    v: usize,
    lists: &NodeLists,
    to: &mut Growing,
) -> Result<(), Memory>
    requires { v < length names.now.nodes }
    ensures { OnOk result (text_in to.new
        ≡ text_in to.old ++ flat_map line_text (section_lines names.now v (both lists.now))) }
{
    write_node(names, v, lists, &mut to.last)?;
    to.close_full()?;
    write_list(&lists.even, to)?;
    write_list(&lists.odd, to)?;
    Ok(())
}

/// The section of a node that is live
fn write_live(
    names: &NetNames,
    v: usize,
    live: bool,
    lists: &NodeLists,
    to: &mut Growing,
) -> Result<(), Memory>
    requires { v < length names.now.nodes }
    ensures { OnOk result (text_in to.new
        ≡ text_in to.old ++ flat_map line_text (node_lines names.now v live (both lists.now))) }
{
    if live {
        write_section(names, v, lists, to)?;
    }
    Ok(())
}

/// `cells N`
fn write_cell_count(cells: &[Option<u32>], to: &mut Vec<u8>) -> Result<(), Memory>
    ensures { OnOk result (to.new.items ≡ to.old.items ++ line_text (count_line cells.now)) }
{
    write_bytes(b"cells ", to)?;
    write_count(count_cells(cells), to)?;
    write_bytes(b"\n", to)
}

/// A line for each cell
fn write_cells(names: &NetNames, cells: &[Option<u32>], to: &mut Growing) -> Result<(), Memory>
    requires nodes { length cells.now ≡ length names.now.nodes }
    requires named { (v b : ℕ) → slice_index_or cells.now v None ≡ Some b → b < length names.now.cells }
    ensures { OnOk result (text_in to.new
        ≡ text_in to.old
        ++ flat_map (λ v. flat_map line_text (cell_lines names.now v (slice_index_or cells.now v None)))
        (range_with_len 0 (length cells.now))) }
{
    'node: for v in 0..cells.len() {
        write_cell(names, v, cells[v], &mut to.last)?;
        to.close_full()?;
    }
    Ok(())
}

/// A section for each live node. The lists of a node are let go as soon as they are written.
fn write_lists(
    names: &NetNames,
    live: &[bool],
    lists: Vec<NodeLists>,
    to: &mut Growing,
) -> Result<(), Memory>
    requires nodes { length live.now ≡ length names.now.nodes }
    requires each { length lists.items ≡ length live.now }
    ensures { OnOk result (text_in to.new
        ≡ text_in to.old
        ++ flat_map
        (λ v.
        flat_map line_text (node_lines names.now v (get_or live.now v false) (get_or (map both lists.items) v ([], []))))
        (range_with_len 0 (length live.now))) }
{
    let mut v = 0;
    'node: for own in lists {
        write_live(names, v, live[v], &own, to)?;
        v += 1;
    }
    Ok(())
}

/// Takes the lists out of a certificate and makes its text of them: pieces of some 64 KiB, one after another. The lists
/// of a node are let go as soon as they are written, so that those of all nodes and the text do not stand in memory at
/// once. The claim of the certificate, its slack and its placement, stays.
///
/// Answers `Memory` where there is no room.
pub fn take_text(
    alloc: Global,
    cert: &mut Certificate,
    problem: &Problem,
    names: &NetNames,
) -> Result<Vec<Vec<u8>>, Memory>
    requires fits { Fits problem.now cert.old }
    requires names { AreNamesOf problem.now names.now }
    ensures text { IfOk result (λ pieces. joined pieces.items ≡ text_of problem.now names.now cert.old) }
    ensures slack { cert.new.slack ≡ cert.old.slack }
    ensures placement { cert.new.placement ≡ cert.old.placement }
{
    let lists = mem::replace(&mut cert.lists, Vec::new(alloc));
    let cells = cert.placement.cells.as_slice();
    let mut to = Growing::new(alloc)?;
    write_head(names, cert.slack, &mut to.last)?;
    write_cell_count(cells, &mut to.last)?;
    write_cells(names, cells, &mut to)?;
    write_lists(names, problem.live.as_slice(), lists, &mut to)?;
    write_bytes(b"end\n", &mut to.last)?;
    to.into_pieces()
}
