//! The nets of a module, as Verilog text.

ghost use Rattle.std.specs.Prelude.{◌≡◌, ◌<◌, ◌++◌, length, take, Some, IfOk, OnErr, OnOk};
ghost use Rattle.ver_net.specs.Texts.{identifier_text, net_text, select_text, text_of};

use std::alloc::Global;
use ver_module::{Module, Net};
use ver_text::print_escaped;
use vg_num::{Memory, print_signed};
use vg_scan::Name;

fn push_identifier(net: &Net<'_>, to: &mut Vec<u8>) -> Result<(), Memory>
    ensures printed { OnOk result (to.new.items ≡ to.old.items ++ identifier_text net.now.escaped net.now.base) }
    ensures unchanged { OnErr result (to.new.items ≡ to.old.items) }
{
    if net.escaped {
        let done = print_escaped(net.base, to);
        return done;
    }
    to.extend_from_slice(net.base)?;
    Ok(())
}

fn push_select(bit: u32, to: &mut Vec<u8>) -> Result<(), Memory>
    ensures printed { OnOk result (to.new.items ≡ to.old.items ++ select_text (Some bit)) }
    ensures begun { OnErr result (take (length to.old.items) to.new.items ≡ to.old.items) }
{
    to.push(b'[')?;
    print_signed(i128::from(bit), to)?;
    to.push(b']')?;
    Ok(())
}

fn push_net(net: &Net<'_>, to: &mut Vec<u8>) -> Result<(), Memory>
    ensures printed { OnOk result (to.new.items ≡ to.old.items ++ text_of net.now) }
    ensures begun { OnErr result (take (length to.old.items) to.new.items ≡ to.old.items) }
{
    push_identifier(net, to)?;
    let Some(bit) = net.bit else {
        return Ok(());
    };
    push_select(bit, to)?;
    Ok(())
}

/// Prints a net as it is named in the text: its identifier, with a backslash before it and a blank after it where it is
/// escaped where it first stands, and for a bit its number in `[` and `]` (IEEE Std 1364-2005, 3.7 and 5.2.1).
///
/// Answers `Memory` where there is no room, and then `to` is as before.
pub fn print_net(net: &Net<'_>, to: &mut Vec<u8>) -> Result<(), Memory>
    ensures printed { OnOk result (to.new.items ≡ to.old.items ++ text_of net.now) }
    ensures unchanged { OnErr result (to.new.items ≡ to.old.items) }
{
    let before = to.len();
    let done = push_net(net, to);
    if done.is_err() {
        to.truncate(before);
    }
    done
}

/// The text of the net of this number, as `print_net` prints it. Answers `Memory` where there is no room.
pub fn net_text(alloc: Global, netlist: &Module, net: u32) -> Result<Name, Memory>
    requires { net < length netlist.now.nets }
    ensures { IfOk result (λ text. text ≡ net_text netlist.now net) }
{
    let mut text = Vec::new(alloc);
    print_net(&netlist.net(net), &mut text)?;
    let name = Name::from_bytes(alloc, &text)?;
    Ok(name)
}
