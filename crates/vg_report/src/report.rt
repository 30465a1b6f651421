//! The lines of reports.
ghost use Rattle.std.specs.Prelude.{◌≡◌, ◌++◌, OnOk, OnErr, codes, decimal, length, take};
ghost use Rattle.std.specs.Fmt.{signed_decimal};
ghost use Rattle.vg_report.specs.Reports.{at_line, best_line, none_line, pick_line, point_line, point_values, points_line, printed_node, refused_line, sink_line, slack_before};

use vg_num::{Memory, print_signed};
use vg_scan::NodeName;

/// Appends bytes. Answers `Memory` where there is no room, and then `to` is as before.
pub fn push(bytes: &[u8], to: &mut Vec<u8>) -> Result<(), Memory>
    ensures printed { OnOk result (to.new.items ≡ to.old.items ++ bytes.now) }
    ensures unchanged { OnErr result (to.new.items ≡ to.old.items) }
{
    to.extend_from_slice(bytes)?;
    Ok(())
}

/// Appends the node of an owner and a leaf: the owner, and after a colon the leaf, where it is not empty. Where there
/// is no room, a part of it may stand there.
pub fn print_parts(owner: &[u8], leaf: &[u8], to: &mut Vec<u8>) -> Result<(), Memory>
    ensures printed { OnOk result (to.new.items
        ≡ to.old.items ++ printed_node (record { owner = owner.now; leaf = leaf.now })) }
    ensures begun { OnErr result (take (length to.old.items) to.new.items ≡ to.old.items) }
{
    push(owner, to)?;
    if !leaf.is_empty() {
        push(b":", to)?;
        push(leaf, to)?;
    }
    Ok(())
}

/// Appends a node: its owner, and after a colon its leaf, where it has one. Answers `Memory` where there is no room,
/// and then `to` is as before.
pub fn print_node(node: &NodeName, to: &mut Vec<u8>) -> Result<(), Memory>
    ensures printed { OnOk result (to.new.items ≡ to.old.items ++ printed_node node.now) }
    ensures unchanged { OnErr result (to.new.items ≡ to.old.items) }
{
    let before = to.len();
    let done = print_parts(node.owner.as_bytes(), node.leaf.as_bytes(), to);
    if done.is_err() {
        to.truncate(before);
    }
    done
}

/// Appends `net NAME total T`, with T in attofarads.
pub fn print_total(name: &[u8], total: i128, to: &mut Vec<u8>) -> Result<(), Memory>
    ensures { OnOk result (to.new.items ≡ to.old.items
        ++ (codes "net " ++ name.now ++ codes " total " ++ signed_decimal total ++ codes "\n")) }
{
    push(b"net ", to)?;
    push(name, to)?;
    push(b" total ", to)?;
    print_signed(total, to)?;
    push(b"\n", to)?;
    Ok(())
}

/// Appends `sink NODE D`, with the owner and the leaf of the node, and D in zeptoseconds.
pub fn print_sink(owner: &[u8], leaf: &[u8], delay: i128, to: &mut Vec<u8>) -> Result<(), Memory>
    ensures { OnOk result (to.new.items ≡ to.old.items
        ++ sink_line (record { owner = owner.now; leaf = leaf.now }, delay)) }
{
    push(b"sink ", to)?;
    print_parts(owner, leaf, to)?;
    push(b" ", to)?;
    print_signed(delay, to)?;
    push(b"\n", to)?;
    Ok(())
}

/// Appends `net NAME refused NUMBER KIND`.
pub fn print_refused(name: &[u8], number: u8, kind: &[u8], to: &mut Vec<u8>) -> Result<(), Memory>
    ensures printed { OnOk result (to.new.items ≡ to.old.items ++ refused_line name.now number kind.now) }
    ensures begun { OnErr result (take (length to.old.items) to.new.items ≡ to.old.items) }
{
    push(b"net ", to)?;
    push(name, to)?;
    push(b" refused ", to)?;
    print_signed(i128::from(number), to)?;
    push(b" ", to)?;
    push(kind, to)?;
    push(b"\n", to)?;
    Ok(())
}

/// Appends `net NAME slack S`, with S in zeptoseconds. Where there is no room, a part of it may stand there.
pub fn print_value(name: &[u8], slack: i128, to: &mut Vec<u8>) -> Result<(), Memory>
    ensures printed { OnOk result (to.new.items
        ≡ to.old.items ++ (codes "net " ++ (name.now ++ (codes " slack " ++ signed_decimal slack)))) }
    ensures begun { OnErr result (take (length to.old.items) to.new.items ≡ to.old.items) }
{
    push(b"net ", to)?;
    push(name, to)?;
    push(b" slack ", to)?;
    print_signed(slack, to)?;
    Ok(())
}

/// Appends ` cost K cells M` and the line's end, with K in thousandths.
fn print_cost(cost: u64, count: usize, to: &mut Vec<u8>) -> Result<(), Memory>
    ensures printed { OnOk result (to.new.items
        ≡ to.old.items ++ (codes " cost " ++ (decimal cost ++ (codes " cells " ++ (decimal count ++ codes "\n"))))) }
    ensures begun { OnErr result (take (length to.old.items) to.new.items ≡ to.old.items) }
{
    push(b" cost ", to)?;
    print_signed(i128::from(cost), to)?;
    push(b" cells ", to)?;
    print_signed(count as i128, to)?;
    push(b"\n", to)?;
    Ok(())
}

/// Appends `net NAME slack S cost K cells M`, with S in zeptoseconds and K in thousandths.
pub fn print_best(
    name: &[u8],
    slack: i128,
    cost: u64,
    count: usize,
    to: &mut Vec<u8>,
) -> Result<(), Memory>
    ensures printed { OnOk result (to.new.items ≡ to.old.items ++ best_line name.now slack cost count) }
    ensures begun { OnErr result (take (length to.old.items) to.new.items ≡ to.old.items) }
{
    print_value(name, slack, to)?;
    print_cost(cost, count, to)?;
    Ok(())
}

/// Appends `net NAME points P`.
pub fn print_count(name: &[u8], count: usize, to: &mut Vec<u8>) -> Result<(), Memory>
    ensures printed { OnOk result (to.new.items ≡ to.old.items ++ points_line name.now count) }
    ensures begun { OnErr result (take (length to.old.items) to.new.items ≡ to.old.items) }
{
    push(b"net ", to)?;
    push(name, to)?;
    push(b" points ", to)?;
    print_signed(count as i128, to)?;
    push(b"\n", to)?;
    Ok(())
}

/// Appends ` K S cells M` and the line's end, with K in thousandths and S in zeptoseconds.
fn print_values(cost: u64, slack: i128, count: usize, to: &mut Vec<u8>) -> Result<(), Memory>
    ensures printed { OnOk result (to.new.items ≡ to.old.items ++ point_values cost slack count) }
    ensures begun { OnErr result (take (length to.old.items) to.new.items ≡ to.old.items) }
{
    push(b" ", to)?;
    print_signed(i128::from(cost), to)?;
    push(b" ", to)?;
    print_signed(slack, to)?;
    push(b" cells ", to)?;
    print_signed(count as i128, to)?;
    push(b"\n", to)?;
    Ok(())
}

/// Appends `point K S cells M`, with K in thousandths and S in zeptoseconds.
pub fn print_point(cost: u64, slack: i128, count: usize, to: &mut Vec<u8>) -> Result<(), Memory>
    ensures printed { OnOk result (to.new.items ≡ to.old.items ++ point_line cost slack count) }
    ensures begun { OnErr result (take (length to.old.items) to.new.items ≡ to.old.items) }
{
    push(b"point", to)?;
    print_values(cost, slack, count, to)?;
    Ok(())
}

/// Appends `pick NAME K S cells M`, with K in thousandths and S in zeptoseconds.
pub fn print_pick(
    name: &[u8],
    cost: u64,
    slack: i128,
    count: usize,
    to: &mut Vec<u8>,
) -> Result<(), Memory>
    ensures printed { OnOk result (to.new.items ≡ to.old.items ++ pick_line name.now cost slack count) }
    ensures begun { OnErr result (take (length to.old.items) to.new.items ≡ to.old.items) }
{
    push(b"pick ", to)?;
    push(name, to)?;
    print_values(cost, slack, count, to)?;
    Ok(())
}

/// Appends `at NODE CELL`, with the owner and the leaf of the node.
pub fn print_at(owner: &[u8], leaf: &[u8], cell: &[u8], to: &mut Vec<u8>) -> Result<(), Memory>
    ensures printed { OnOk result (to.new.items
        ≡ to.old.items ++ at_line (record { owner = owner.now; leaf = leaf.now }) cell.now) }
    ensures begun { OnErr result (take (length to.old.items) to.new.items ≡ to.old.items) }
{
    push(b"at ", to)?;
    print_parts(owner, leaf, to)?;
    push(b" ", to)?;
    push(cell, to)?;
    push(b"\n", to)?;
    Ok(())
}

/// Appends `net NAME none`. Where there is no room, a part of it may stand there.
fn print_none_line(name: &[u8], to: &mut Vec<u8>) -> Result<(), Memory>
    ensures printed { OnOk result (to.new.items ≡ to.old.items ++ none_line name.now) }
    ensures begun { OnErr result (take (length to.old.items) to.new.items ≡ to.old.items) }
{
    push(b"net ", to)?;
    push(name, to)?;
    push(b" none\n", to)?;
    Ok(())
}

/// Appends `net NAME none`. Answers `Memory` where there is no room, and then `to` is as before.
pub fn print_none(name: &[u8], to: &mut Vec<u8>) -> Result<(), Memory>
    ensures printed { OnOk result (to.new.items ≡ to.old.items ++ none_line name.now) }
    ensures unchanged { OnErr result (to.new.items ≡ to.old.items) }
{
    let before = to.len();
    let done = print_none_line(name, to);
    if done.is_err() {
        to.truncate(before);
    }
    done
}

/// Appends ` polarity POLARITY` and the line's end; the polarity is told in two pieces.
fn print_polarity(polarity: &[u8], node: &[u8], to: &mut Vec<u8>) -> Result<(), Memory>
    ensures printed { OnOk result (to.new.items
        ≡ to.old.items ++ (codes " polarity " ++ (polarity.now ++ (node.now ++ codes "\n")))) }
    ensures begun { OnErr result (take (length to.old.items) to.new.items ≡ to.old.items) }
{
    push(b" polarity ", to)?;
    push(polarity, to)?;
    push(node, to)?;
    push(b"\n", to)?;
    Ok(())
}

/// Appends `net NAME slack S polarity POLARITY`, with S in zeptoseconds; the polarity is told in two pieces.
pub fn print_slack(
    name: &[u8],
    slack: i128,
    polarity: &[u8],
    node: &[u8],
    to: &mut Vec<u8>,
) -> Result<(), Memory>
    ensures printed { OnOk result (to.new.items
        ≡ to.old.items ++ slack_before name.now slack (polarity.now ++ (node.now ++ codes "\n"))) }
    ensures begun { OnErr result (take (length to.old.items) to.new.items ≡ to.old.items) }
{
    print_value(name, slack, to)?;
    print_polarity(polarity, node, to)?;
    Ok(())
}
