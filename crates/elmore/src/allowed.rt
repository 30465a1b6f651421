ghost use Rattle.std.specs.Prelude.{◌≡◌, ◌↔◌, ℕ, IsTrue, IfOk};
ghost use Rattle.elmore.specs.Allowances.{Allows, all_allowed, AreAllowances};

use std::alloc::Global;
use vg_num::{Memory, Row};

/// Which repeaters a node allows, by their numbers in the problem.
#[derive(Drop)]
pub enum Allowed {
    /// All of them.
    All,
    /// These alone. The numbers rise.
    Only(Row<u32>),
}

impl Allowed {
    /// Whether the repeater of this number is allowed.
    pub fn allows(&self, rep: u32) -> bool
        ensures { IsTrue result ↔ Allows self.now rep }
    {
        match self {
            Allowed::All => true,
            Allowed::Only(numbers) => numbers.as_slice().contains(&rep),
        }
    }

    /// All repeaters at each of `n` nodes. Answers `Memory` where there is no room.
    pub fn everywhere(alloc: Global, n: usize) -> Result<Row<Allowed>, Memory>
        ensures all { IfOk result (λ allowed. allowed ≡ all_allowed n) }
        ensures allowances { IfOk result (λ allowed. (reps : ℕ) → AreAllowances n reps allowed) }
    {
        let mut allowed = Vec::new(alloc);
        'nodes: for _ in 0..n {
            allowed.push(Allowed::All)?;
        }
        Ok(Row::from_vec(allowed))
    }
}
