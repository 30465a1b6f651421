//! The constraints.
ghost use Rattle.std.specs.Prelude.{◌≡◌, [], ◌∷◌, ◌++◌, IfOk, OnOk};
ghost use Rattle.vg_gen.specs.Nets.{up_to};
ghost use Rattle.vg_gen.specs.Lines.{ended, lined, want_line};
ghost use Rattle.vg_gen.specs.Texts.{constraints_text, wants};

use crate::name::print_node;
use crate::net::Node;
use std::alloc::Global;
use vg_num::Memory;

/// Prints that the sink of the branch with this number is to get the inverted signal.
fn print_want(j: u32, to: &mut Vec<u8>) -> Result<(), Memory>
    ensures { OnOk result (to.new.items ≡ to.old.items ++ ended (want_line j)) }
{
    to.extend_from_slice(b"want ")?;
    print_node(Node::Branch(j), to)?;
    to.extend_from_slice(b" inverted\n")?;
    Ok(())
}

/// Prints what the branch with this number wants, if it is an odd one.
fn print_if_odd(j: u32, to: &mut Vec<u8>) -> Result<(), Memory>
    ensures { OnOk result (to.new.items ≡ to.old.items ++ lined (wants (j ∷ []))) }
{
    if j % 2 == 1 {
        print_want(j, to)?;
    }
    Ok(())
}

/// Prints what so many branches want.
fn print_wants(branches: u32, to: &mut Vec<u8>) -> Result<(), Memory>
    ensures { OnOk result (to.new.items ≡ to.old.items ++ lined (wants (up_to branches))) }
{
    'want: for at in 0..branches {
        print_if_odd(at + 1, to)?;
    }
    Ok(())
}

/// The constraints of a design with so many branches.
pub(crate) fn constraints(alloc: Global, branches: u32) -> Result<Vec<u8>, Memory>
    ensures { IfOk result (λ text. text.items ≡ constraints_text branches) }
{
    let mut text = Vec::from_slice(alloc, b"vgcons 1\ndefault required 1000000\n")?;
    print_wants(branches, &mut text)?;
    Ok(text)
}
