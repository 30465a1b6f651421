//! What a driver charges where no cell stands in its net.

ghost use Rattle.std.specs.Prelude.{◌≡◌, ◌≤◌, ◌^◌};
ghost use Rattle.elmore.specs.Trees.{total_capacitance};

use elmore::Node;

/// All capacitances together (aF).
pub fn total_capacitance(nodes: &[Node]) -> u128
    requires { total_capacitance nodes.now ≤ 10 ^ 11 }
    ensures { result ≡ total_capacitance nodes.now }
{
    let mut total = 0;
    'node: for node in nodes {
        total += node.c;
    }
    total
}
