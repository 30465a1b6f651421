//! A section as a net.

ghost use Rattle.std.specs.Prelude.{◌≡◌, ◌^◌, ◌≤◌, length, IfOk, IfErr};
ghost use Rattle.std.specs.List.{All};
ghost use Rattle.std.specs.Str.Lines.{lines};
ghost use Rattle.vg_scan.specs.Printed.{IsPrintable};
ghost use Rattle.spef_file.specs.IndexFiles.{file_of};
ghost use Rattle.spef_net.specs.Statements.{statements};
ghost use Rattle.spef_net.specs.Faults.{FailsFirst, IsFaultless};
ghost use Rattle.spef_net.specs.Denoted.{IsNet};
ghost use Rattle.spef_net.specs.Sections.{IsSized};
ghost use Rattle.spef_net.specs.Builders.{IsMade};
ghost use Rattle.spef_net.specs.Nets.{IsSound};
ghost use Rattle.spef_nodes.specs.Nodes.{noted_all};

use crate::builder::NetBuilder;
use crate::connections::read_connections;
use crate::fault::{NetFault, NetKind};
use crate::net::ParNet;
use crate::read::read_lines;
use spef_file::SpefIndex;
use spef_nodes::Nodes;
use std::alloc::Global;
use vg_num::{Memory as NoRoom, Row};
use vg_scan::Name;

/// The net of a builder.
fn finish(alloc: Global, net: &[u8], reduced: bool, builder: NetBuilder) -> Result<ParNet, NoRoom>
    requires { IsSound net.now (noted_all builder.nodes builder.notes) builder.conns builder.caps builder.ress }
    ensures { IfOk result (λ par. IsMade net.now reduced builder.entry par) }
{
    let name = Name::from_bytes(alloc, net)?;
    let (owners, leaves) = builder.nodes.into_nodes().into_names();
    Ok(ParNet {
        name,
        nodes: Nodes::new(owners, leaves, builder.notes),
        conns: Row::from_vec(builder.conns),
        caps: Row::from_vec(builder.caps),
        ress: Row::from_vec(builder.ress),
        reduced,
        inductive: builder.inductive,
    })
}

/// The net that a section denotes, or its first fault with the number of its line.
///
/// `bytes` are the lines between the section's head and its `*END`, without comments; `first` is the number of the
/// first of them, `net` the canonical name that the head gives, and `reduced` whether it is the head of a reduced net.
/// Answers `Conn`, `Cap`, `Res`, `Number`, `Foreign` and `SelfCoupled` as `NetKind` says, and `Memory` where there is
/// no room, with the line at which it was wanted.
pub(crate) fn read_section(
    alloc: Global,
    index: &SpefIndex,
    net: &[u8],
    reduced: bool,
    bytes: &[u8],
    first: usize,
) -> Result<ParNet, NetFault>
    requires length { length bytes.now ≤ 2 ^ 28 }
    requires first { first ≤ 2 ^ 62 }
    requires count { length (lines bytes.now) ≤ 2 ^ 28 }
    requires named { IsPrintable net.now }
    requires mapped { All (λ row. IsPrintable row.1) index.now.map }
    ensures faultless { IfOk result (λ _. IsFaultless net.now (statements (file_of index.now) (lines bytes.now))) }
    ensures net { IfOk result (λ par. IsNet net.now reduced (statements (file_of index.now) (lines bytes.now)) par) }
    ensures sized { IfOk result IsSized }
    ensures fault { IfErr result (FailsFirst net.now (statements (file_of index.now) (lines bytes.now)) first) }
{
    match read_connections(alloc, index, net, bytes) {
        Err(_) => Err(NetFault {
            kind: NetKind::Memory,
            line: first,
        }),
        Ok(nodes) => match read_lines(alloc, nodes, bytes, first) {
            Err(fault) => Err(fault),
            Ok(builder) => match finish(alloc, net, reduced, builder) {
                Err(_) => Err(NetFault {
                    kind: NetKind::Memory,
                    line: first,
                }),
                Ok(par) => Ok(par),
            },
        },
    }
}
