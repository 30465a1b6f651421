//! How many pairs the lists of a certificate have.

ghost use Rattle.std.specs.Prelude.{◌≡◌, ℕ, ◌≤◌, ◌^◌, Bool, length};
ghost use Rattle.vg_cert.specs.Fits.{lists_in};
ghost use Rattle.vg_verdict.specs.Judged.{pairs_in};

use vg_cert::NodeLists;

/// How many pairs the lists of all nodes have together.
pub(crate) fn count_pairs(lists: &[NodeLists]) -> usize
    requires nodes { length lists.now ≤ 2 ^ 17 }
    requires few { (v : ℕ) (odd : Bool) → length (lists_in lists.now v odd) ≤ 2 ^ 28 }
    ensures { result ≡ pairs_in (lists_in lists.now) (length lists.now) }
{
    let mut count = 0;
    'node: for v in 0..lists.len() {
        let here = &lists[v];
        count += here.even.len() + here.odd.len();
    }
    count
}
