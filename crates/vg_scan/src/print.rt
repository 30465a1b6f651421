//! Names of SPEF, printed.

ghost use Rattle.std.specs.Prelude.{◌≡◌, ◌++◌, length, take, OnOk, OnErr};
ghost use Rattle.std.specs.List.{list_all};
ghost use Rattle.vg_scan.specs.Printed.{is_own, printed, printed_byte, IsPrintable};

use crate::chars::Chars;
use vg_num::Memory;

/// Whether a byte stands for itself whatever the header says.
fn is_own(byte: u8) -> bool
    ensures { result ≡ is_own byte }
{
    byte.is_ascii_alphanumeric() || byte == b'_'
}

fn print_byte(byte: u8, chars: &Chars, to: &mut Vec<u8>) -> Result<(), Memory>
    ensures printed { OnOk result (to.new.items ≡ to.old.items ++ printed_byte chars.now byte) }
    ensures unchanged { OnErr result (to.new.items ≡ to.old.items) }
{
    if is_own(byte) {
        to.push(byte)?;
    } else if byte == b'[' {
        to.push(chars.bus_left)?;
    } else if byte == b']' {
        to.push(chars.bus_right)?;
    } else {
        to.extend_from_slice(&[b'\\', byte])?;
    }
    Ok(())
}

/// Prints the bytes of a name one after another.
fn print_bytes(name: &[u8], chars: &Chars, to: &mut Vec<u8>) -> Result<(), Memory>
    ensures printed { OnOk result (to.new.items ≡ to.old.items ++ printed chars.now name.now) }
    ensures begun { OnErr result (take (length to.old.items) to.new.items ≡ to.old.items) }
{
    'byte: for byte in name {
        print_byte(*byte, chars, to)?;
    }
    Ok(())
}

/// Whether all bytes of a name stand for themselves, as in most names.
fn are_own(name: &[u8]) -> bool
    ensures { result ≡ list_all is_own name.now }
{
    name.iter().all(|byte| is_own(*byte))
}

/// Prints a text whose canonical name is this name (IEEE Std 1481).
///
/// Answers `Memory` where there is no room, and then `to` is as before.
pub fn print_spef_name(name: &[u8], chars: &Chars, to: &mut Vec<u8>) -> Result<(), Memory>
    requires { IsPrintable name.now }
    ensures printed { OnOk result (to.new.items ≡ to.old.items ++ printed chars.now name.now) }
    ensures unchanged { OnErr result (to.new.items ≡ to.old.items) }
{
    if are_own(name) {
        to.extend_from_slice(name)?;
        return Ok(());
    }
    let before = to.len();
    let done = print_bytes(name, chars, to);
    if done.is_err() {
        to.truncate(before);
    }
    done
}
