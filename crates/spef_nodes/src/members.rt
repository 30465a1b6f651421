//! Which nodes are inside a net.

ghost use Rattle.std.specs.Prelude.{◌≡◌};
ghost use Rattle.spef_nodes.specs.Members.{is_inner, node_named};

use vg_scan::are_digits;

/// Whether a node of this owner and leaf is inside the net of this name.
pub fn is_inner(net: &[u8], owner: &[u8], leaf: &[u8]) -> bool
    ensures { result ≡ is_inner net.now (node_named owner.now leaf.now) }
{
    owner == net && are_digits(leaf)
}
