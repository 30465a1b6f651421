//! The lines of the timing of a design.

ghost use Rattle.std.specs.Prelude.{◌≡◌, ◌++◌, OnOk};
ghost use Rattle.std.specs.List.{flat_map};
ghost use Rattle.mode_sta.specs.Lines.{cycle_line, net_line, no_path_line, sta_report, worst_line};

use vg_num::{Memory, print_signed};
use vg_report::{print_node, push};
use vg_scan::NodeName;
use vg_sta::{Sta, StaNet};

/// Appends `design worst S end PIN`, with S in zeptoseconds.
fn print_worst(worst: i128, end: &NodeName, to: &mut Vec<u8>) -> Result<(), Memory>
    ensures { OnOk result (to.new.items ≡ to.old.items ++ worst_line worst end.now) }
{
    push(b"design worst ", to)?;
    print_signed(worst, to)?;
    push(b" end ", to)?;
    print_node(end, to)?;
    push(b"\n", to)?;
    Ok(())
}

/// Appends `net NAME slack S`, with S in zeptoseconds.
fn print_net(net: &StaNet, to: &mut Vec<u8>) -> Result<(), Memory>
    ensures { OnOk result (to.new.items ≡ to.old.items ++ net_line net.now) }
{
    push(b"net ", to)?;
    push(net.net.as_bytes(), to)?;
    push(b" slack ", to)?;
    print_signed(net.slack, to)?;
    push(b"\n", to)?;
    Ok(())
}

/// Appends the lines of nets.
fn print_nets(nets: &[StaNet], to: &mut Vec<u8>) -> Result<(), Memory>
    ensures { OnOk result (to.new.items ≡ to.old.items ++ flat_map net_line nets.now) }
{
    'net: for net in nets {
        print_net(net, to)?;
    }
    Ok(())
}

/// Appends the slacks of a design.
pub(crate) fn report_sta(found: &Sta, to: &mut Vec<u8>) -> Result<(), Memory>
    ensures { OnOk result (to.new.items ≡ to.old.items ++ sta_report found.now) }
{
    print_worst(found.worst, &found.end, to)?;
    print_nets(found.nets.as_slice(), to)?;
    Ok(())
}

/// Appends `design refused Cycle NAME`.
pub(crate) fn print_cycle(name: &[u8], to: &mut Vec<u8>) -> Result<(), Memory>
    ensures { OnOk result (to.new.items ≡ to.old.items ++ cycle_line name.now) }
{
    push(b"design refused Cycle ", to)?;
    push(name, to)?;
    push(b"\n", to)?;
    Ok(())
}

/// Appends `design refused NoPath`.
pub(crate) fn print_no_path(to: &mut Vec<u8>) -> Result<(), Memory>
    ensures { OnOk result (to.new.items ≡ to.old.items ++ no_path_line) }
{
    push(b"design refused NoPath\n", to)
}
