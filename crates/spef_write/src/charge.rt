//! The capacitances of a net's nodes.

ghost use Rattle.std.specs.Prelude.{◌≡◌, ◌≤◌, ◌^◌, nat_le, IfOk};
ghost use Rattle.std.specs.List.{All};
ghost use Rattle.spef_net.specs.Nets.{IsCapOf};
ghost use Rattle.spef_write.specs.Sections.{cap_nodes, total};
ghost use Rattle.spef_write.specs.Charges.{AreSums};

use spef_net::ParNet;
use std::alloc::Global;
use vg_num::Memory;

/// The most that the capacitors of a net that is written may come to, in attofarads.
const MOST: u64 = 1_000_000_000_000_000;

/// Whether the capacitors of a net come to at most 10^15 aF together, so that `write_net` may write it.
pub fn has_small_charge(net: &ParNet) -> bool
    ensures { result ≡ nat_le (total net.now.caps) (10 ^ 15) }
{
    let mut charge = 0u64;
    'cap: for cap in net.caps.as_slice() {
        if cap.1 > MOST - charge {
            return false;
        }
        charge += cap.1;
    }
    true
}

/// The values of all capacitors together.
pub(crate) fn charge_of(caps: &[(u32, u64)]) -> u64
    requires { total caps.now ≤ 10 ^ 15 }
    ensures { result ≡ total caps.now }
{
    let mut sum = 0u64;
    'cap: for cap in caps {
        sum += cap.1;
    }
    sum
}

/// The capacitance at each of so many nodes (aF), in one pass. Answers `Memory` where there is no room.
pub fn sums(alloc: Global, count: usize, caps: &[(u32, u64)]) -> Result<Vec<u64>, Memory>
    requires within { All (IsCapOf count) caps.now }
    requires few { total caps.now ≤ 10 ^ 15 }
    ensures { IfOk result (λ sums. AreSums count caps.now sums.items) }
{
    let mut sums = vec![in alloc; 0u64; count]?;
    'cap: for cap in caps {
        sums[cap.0 as usize] += cap.1;
    }
    Ok(sums)
}

/// The nodes that capacitors name, each once, in the order in which they name them first.
pub(crate) fn cap_nodes(
    alloc: Global,
    count: usize,
    caps: &[(u32, u64)],
) -> Result<Vec<u32>, Memory>
    requires { All (IsCapOf count) caps.now }
    ensures { IfOk result (λ nodes. nodes.items ≡ cap_nodes caps.now) }
{
    let mut named = vec![in alloc; false; count]?;
    let mut nodes = Vec::new(alloc);
    'cap: for cap in caps {
        let at = cap.0 as usize;
        if !named[at] {
            named[at] = true;
            nodes.push(cap.0)?;
        }
    }
    Ok(nodes)
}
