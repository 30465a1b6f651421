ghost use Rattle.std.specs.Prelude.{◌≡◌, suc, ◌<◌, ◌^◌};

use crate::fault::{CertFault, CertKind};

/// Where a line begins, and how many lines stand before it.
#[derive(Clone, Copy)]
pub(crate) struct Place {
    pub at: usize,
    pub count: usize,
}

impl Place {
    /// The start of a text.
    pub fn start() -> Place
        ensures at { result.at ≡ 0 }
        ensures count { result.count ≡ 0 }
    {
        Place { at: 0, count: 0 }
    }

    /// A fault of the line before this place.
    pub fn fault(self, kind: CertKind) -> CertFault
        ensures kind { result.kind ≡ kind }
        ensures line { result.line ≡ self.count }
    {
        CertFault {
            kind,
            line: self.count,
        }
    }

    /// A fault of the line that begins here.
    pub fn next_fault(self, kind: CertKind) -> CertFault
        requires { suc self.count < 2 ^ 64 }
        ensures kind { result.kind ≡ kind }
        ensures line { result.line ≡ suc self.count }
    {
        CertFault {
            kind,
            line: self.count + 1,
        }
    }
}
