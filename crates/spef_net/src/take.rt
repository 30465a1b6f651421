//! A line of a part, taken into the builder of a net.

ghost use Rattle.std.specs.Prelude.{◌≡◌, ◌∷◌, ℕ, List, Ok, OnOk};
ghost use Rattle.spef_net.specs.Sights.{ground_in, coupling_in, resistor_in};
ghost use Rattle.spef_net.specs.Statements.{conn_line, cap_line, res_line, statement_in};
ghost use Rattle.spef_net.specs.Builders.{Takes, IsSameSource};

use crate::builder::NetBuilder;
use crate::conn_line::{ConnLine, read_conn};
use crate::fault::NetKind;
use crate::line::{connection_note, star_note};
use crate::part::Part;
use crate::value::read_value;
use vg_scan::{NameFault, Words};

/// A line of connections.
fn take_conn<'a>(
    builder: &mut NetBuilder<'a>,
    line: &'a [u8],
    tag: &[u8],
    words: Words<'a>,
) -> Result<(), NetKind>
    ensures taken { Takes result builder.old.net builder.old
        (conn_line builder.old.file line.now (tag.now ∷ words.entry)) builder.new }
    ensures source { OnOk result (IsSameSource builder.old builder.new) }
{
    let nodes = &builder.nodes;
    match read_conn(nodes.alloc(), nodes.index(), line, tag, words) {
        Err(kind) => Err(kind),
        Ok(ConnLine::Joins(kind, direction, node)) => {
            builder.join(kind, direction, &node, connection_note(line))
        }
        Ok(ConnLine::Stars(node)) => builder.star(&node, star_note(line)),
    }
}

/// A capacitor to the ground, by the texts of its node and its value.
fn take_ground<'a>(
    builder: &mut NetBuilder<'a>,
    node: &'a [u8],
    value: &[u8],
) -> Result<(), NetKind>
    ensures taken { Takes result builder.old.net builder.old
        (ground_in builder.old.file node.now value.now) builder.new }
    ensures source { OnOk result (IsSameSource builder.old builder.new) }
{
    let places = builder.nodes.index().header.c_places;
    match builder.see(node) {
        Err(NameFault::Bad) => Err(NetKind::Cap),
        Err(NameFault::Memory) => Err(NetKind::Memory),
        Ok(None) => Err(NetKind::Foreign),
        Ok(Some(id)) => builder.add_cap(id, read_value(value, places)),
    }
}

/// A capacitor between two nodes.
fn take_coupling<'a>(
    builder: &mut NetBuilder<'a>,
    nodes: (&'a [u8], &'a [u8]),
    value: &[u8],
) -> Result<(), NetKind>
    ensures taken { Takes result builder.old.net builder.old
        (coupling_in builder.old.file nodes.entry.0.now nodes.entry.1.now value.now) builder.new }
    ensures source { OnOk result (IsSameSource builder.old builder.new) }
{
    let places = builder.nodes.index().header.c_places;
    match builder.see_two(nodes) {
        Err(NameFault::Bad) => Err(NetKind::Cap),
        Err(NameFault::Memory) => Err(NetKind::Memory),
        Ok((None, None)) => Err(NetKind::Foreign),
        Ok((Some(id), None)) => builder.add_cap(id, read_value(value, places)),
        Ok((None, Some(id))) => builder.add_cap(id, read_value(value, places)),
        Ok((Some(_), Some(_))) => Err(NetKind::SelfCoupled),
    }
}

/// A resistor between two nodes.
fn take_resistor<'a>(
    builder: &mut NetBuilder<'a>,
    nodes: (&'a [u8], &'a [u8]),
    value: &[u8],
) -> Result<(), NetKind>
    ensures taken { Takes result builder.old.net builder.old
        (resistor_in builder.old.file nodes.entry.0.now nodes.entry.1.now value.now) builder.new }
    ensures source { OnOk result (IsSameSource builder.old builder.new) }
{
    let places = builder.nodes.index().header.r_places;
    match builder.see_two(nodes) {
        Err(NameFault::Bad) => Err(NetKind::Res),
        Err(NameFault::Memory) => Err(NetKind::Memory),
        Ok((None, _)) => Err(NetKind::Foreign),
        Ok((Some(_), None)) => Err(NetKind::Foreign),
        Ok((Some(a), Some(b))) => { builder.add_res((a, b), read_value(value, places)) }
    }
}

/// A line of capacitors, by the words after the first.
fn take_cap<'a>(builder: &mut NetBuilder<'a>, mut words: Words<'a>) -> Result<(), NetKind>
    ensures taken { (id : List ℕ)
        → Takes result builder.old.net builder.old (cap_line builder.old.file (id ∷ words.entry)) builder.new }
    ensures source { OnOk result (IsSameSource builder.old builder.new) }
{
    let (Some(node), Some(other)) = (words.next(), words.next()) else {
        return Err(NetKind::Cap);
    };
    let Some(value) = words.next() else {
        return take_ground(builder, node, other);
    };
    if !words.is_empty() {
        return Err(NetKind::Cap);
    }
    take_coupling(builder, (node, other), value)
}

/// A line of resistors, by the words after the first.
fn take_res<'a>(builder: &mut NetBuilder<'a>, mut words: Words<'a>) -> Result<(), NetKind>
    ensures taken { (id : List ℕ)
        → Takes result builder.old.net builder.old (res_line builder.old.file (id ∷ words.entry)) builder.new }
    ensures source { OnOk result (IsSameSource builder.old builder.new) }
{
    let (Some(a), Some(b), Some(value)) = (words.next(), words.next(), words.next()) else {
        return Err(NetKind::Res);
    };
    if !words.is_empty() {
        return Err(NetKind::Res);
    }
    take_resistor(builder, (a, b), value)
}

/// A line with words that is no head, in this part, by its first word and the others.
///
/// Answers `Conn`, `Cap`, `Res`, `Foreign`, `SelfCoupled` and `Number` as they say, and `Memory` where there is no
/// room.
pub(crate) fn take_in<'a>(
    builder: &mut NetBuilder<'a>,
    part: Part,
    line: &'a [u8],
    first: &[u8],
    words: Words<'a>,
) -> Result<(), NetKind>
    ensures taken { Takes result builder.old.net builder.old
        (statement_in part builder.old.file line.now (first.now ∷ words.entry)) builder.new }
    ensures source { OnOk result (IsSameSource builder.old builder.new) }
{
    match part {
        Part::Nowhere => Err(NetKind::Conn),
        Part::Conns => take_conn(builder, line, first, words),
        Part::Caps => take_cap(builder, words),
        Part::Ress => take_res(builder, words),
        Part::Inducs => Ok(()),
    }
}
