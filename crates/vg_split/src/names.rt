//! The names of cells that are put in, and of the nets behind them.

ghost use Rattle.std.specs.Prelude.{◌≡◌, ◌++◌, ◌∷◌, [], length, take, OnErr, OnOk};
ghost use Rattle.std.specs.Fmt.{decimal};
ghost use Rattle.vg_split.specs.NewNames.{cell_name, net_name};

use vg_num::{Memory, print_signed};

/// Puts the prefix, a letter and a number behind a text.
fn push_parts(prefix: &[u8], letter: u8, number: u64, to: &mut Vec<u8>) -> Result<(), Memory>
    ensures pushed { OnOk result (to.new.items ≡ to.old.items ++ (prefix.now ++ (letter ∷ [] ++ decimal number))) }
    ensures begun { OnErr result (take (length to.old.items) to.new.items ≡ to.old.items) }
{
    to.extend_from_slice(prefix)?;
    to.push(letter)?;
    print_signed(i128::from(number), to)?;
    Ok(())
}

/// The same, but where there is no room the text is as before.
fn push_name(prefix: &[u8], letter: u8, number: u64, to: &mut Vec<u8>) -> Result<(), Memory>
    ensures pushed { OnOk result (to.new.items ≡ to.old.items ++ (prefix.now ++ (letter ∷ [] ++ decimal number))) }
    ensures unchanged { OnErr result (to.new.items ≡ to.old.items) }
{
    let before = to.len();
    let done = push_parts(prefix, letter, number, to);
    if done.is_err() {
        to.truncate(before);
    }
    done
}

/// Puts the name of the cell of a number behind a text. Answers `Memory` where there is no room, and then `to` is as
/// before.
pub fn push_cell_name(prefix: &[u8], number: u64, to: &mut Vec<u8>) -> Result<(), Memory>
    ensures pushed { OnOk result (to.new.items ≡ to.old.items ++ cell_name prefix.now number) }
    ensures unchanged { OnErr result (to.new.items ≡ to.old.items) }
{
    push_name(prefix, b'u', number, to)
}

/// Puts the name of the new net of a number behind a text. Answers `Memory` where there is no room, and then `to` is as
/// before.
pub fn push_net_name(prefix: &[u8], number: u64, to: &mut Vec<u8>) -> Result<(), Memory>
    ensures pushed { OnOk result (to.new.items ≡ to.old.items ++ net_name prefix.now number) }
    ensures unchanged { OnErr result (to.new.items ≡ to.old.items) }
{
    push_name(prefix, b'n', number, to)
}
