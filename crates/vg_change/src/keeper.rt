//! The stage of a net that keeps its name.

ghost use Rattle.std.specs.Prelude.{◌≡◌, ◌<◌, length, find, slice_index, unwrap_or};
ghost use Rattle.std.specs.List.{All};
ghost use Rattle.elmore.specs.Path.{nodes};
ghost use Rattle.vg_design.specs.Designs.{is_port, name_of};

use spef_net::ParNet;

/// The node of a net's tree that is a port, if one is.
fn port_node(par: &ParNet, order: &[u32]) -> Option<usize>
    requires { All (λ v. v < length par.now.nodes) order.now }
    ensures { result ≡ find (λ w. is_port (name_of par.now (slice_index order.now w))) (nodes (length order.now)) }
{
    'node: for w in 0..order.len() {
        if par.nodes.leaf(order[w] as usize).is_empty() {
            return Some(w);
        }
    }
    None
}

/// The node of a net's tree that is a port; if none is, the root.
pub(crate) fn port_or_root(par: &ParNet, order: &[u32]) -> usize
    requires some { 0 < length order.now }
    requires within { All (λ v. v < length par.now.nodes) order.now }
    ensures is { result
        ≡ unwrap_or (find (λ w. is_port (name_of par.now (slice_index order.now w))) (nodes (length order.now))) 0 }
    ensures node { result < length order.now }
{
    port_node(par, order).unwrap_or(0)
}
