//! Names, printed as identifiers.

ghost use Rattle.std.specs.Prelude.{◌≡◌, ◌++◌, length, take, OnOk, OnErr};
ghost use Rattle.ver_text.specs.Names.{escaped, printed};

use crate::name::is_simple;
use vg_num::Memory;

fn push_escaped(name: &[u8], to: &mut Vec<u8>) -> Result<(), Memory>
    ensures printed { OnOk result (to.new.items ≡ to.old.items ++ escaped name.now) }
    ensures begun { OnErr result (take (length to.old.items) to.new.items ≡ to.old.items) }
{
    to.push(b'\\')?;
    to.extend_from_slice(name)?;
    to.push(b' ')?;
    Ok(())
}

/// Prints a name as an escaped identifier, with the blank that ends it (IEEE Std 1364-2005, 3.7.1).
///
/// Answers `Memory` where there is no room, and then `to` is as before.
pub fn print_escaped(name: &[u8], to: &mut Vec<u8>) -> Result<(), Memory>
    ensures printed { OnOk result (to.new.items ≡ to.old.items ++ escaped name.now) }
    ensures unchanged { OnErr result (to.new.items ≡ to.old.items) }
{
    let before = to.len();
    let done = push_escaped(name, to);
    if done.is_err() {
        to.truncate(before);
    }
    done
}

/// Prints a name as an identifier: as it is where it is a simple one, else escaped, with the blank that ends it.
///
/// Answers `Memory` where there is no room, and then `to` is as before.
pub fn print_name(name: &[u8], to: &mut Vec<u8>) -> Result<(), Memory>
    ensures printed { OnOk result (to.new.items ≡ to.old.items ++ printed name.now) }
    ensures unchanged { OnErr result (to.new.items ≡ to.old.items) }
{
    if !is_simple(name) {
        let done = print_escaped(name, to);
        return done;
    }
    to.extend_from_slice(name)?;
    Ok(())
}
