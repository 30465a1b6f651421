//! Which repeaters a node allows.

ghost use Rattle.std.specs.Prelude.{◌≡◌, ◌<◌, ◌^◌, length, IfOk};
ghost use Rattle.std.specs.List.{All, list_any};
ghost use Rattle.std.specs.Str.{bytes_eq};
ghost use Rattle.vg_design.specs.Parts.{allowance_at, allowed_in, cells_of, numbers_of};

use crate::design::Design;
use crate::numbers::push_where;
use crate::parts::node_of;
use elmore::Allowed;
use lib_linear::{Repeater, repeaters};
use spef_net::ParNet;
use std::alloc::Global;
use vg_cons::allows;
use vg_num::{Memory, Row};
use vg_scan::Name;

/// Whether a name is among some.
fn is_among(name: &Name, names: &[Name]) -> bool
    ensures { result ≡ list_any (bytes_eq name.now) names.now }
{
    names.iter().any(|other| name == other)
}

/// The numbers of the repeaters whose cells are among some.
fn numbers_of(alloc: Global, repeaters: &[Repeater], cells: &[Name]) -> Result<Vec<u32>, Memory>
    requires few { length repeaters.now < 2 ^ 32 }
    ensures { IfOk result (λ numbers. numbers.items ≡ numbers_of (cells_of repeaters.now) cells.now) }
{
    let mut numbers = Vec::new(alloc);
    'repeater: for at in 0..repeaters.len() {
        let named = is_among(&repeaters[at].cell, cells);
        push_where(named, at as u32, &mut numbers)?;
    }
    Ok(numbers)
}

/// The repeaters that a node of a net allows.
fn allowed_at(alloc: Global, design: &Design, net: &ParNet, v: u32) -> Result<Allowed, Memory>
    requires { v < length net.now.nodes }
    ensures { IfOk result (λ allowed. allowed ≡ allowance_at design.now net.now v) }
{
    match allows(&design.cons, node_of(net, v)) {
        None => Ok(Allowed::All),
        Some(cells) => {
            let numbers = numbers_of(alloc, repeaters(&design.library), cells)?;
            Ok(Allowed::Only(Row::from_vec(numbers)))
        }
    }
}

/// The repeaters that each node of the tree allows.
pub(crate) fn allowed_of(
    alloc: Global,
    design: &Design,
    net: &ParNet,
    order: &[u32],
) -> Result<Vec<Allowed>, Memory>
    requires nodes { All (λ v. v < length net.now.nodes) order.now }
    ensures { IfOk result (λ allowed. allowed.items ≡ allowed_in design.now net.now order.now) }
{
    let mut allowed = Vec::with_capacity(alloc, order.len())?;
    'node: for v in order {
        allowed.push(allowed_at(alloc, design, net, *v)?)?;
    }
    Ok(allowed)
}
