ghost use Rattle.std.specs.Prelude.{◌≡◌};
ghost use Rattle.clap.specs.Words.{kind_of};
ghost use Rattle.vg_words.specs.Command.{fault_for};
ghost use Rattle.vg_words.specs.Options.{may_write_nothing, mode_name, optional, required};
ghost use Rattle.vg_words.specs.Request.{cap_of, may_be_given, parts_of, prefix_of, size_of, target_of, text_for};
ghost use Rattle.vg_words.specs.declared.ask.WordFault.TheVariants.{Memory as out_of_memory};

use crate::cap::cap_in;
use crate::count::{parts_in, size_in};
use crate::option::Opt;
use crate::target::target_in;
use clap::error::ErrorKind;
use vg_num::{Memory, Text};

/// What the program is asked to do.
#[derive(Clone, Copy, Debug, PartialEq, Eq)]
pub enum Mode {
    /// Prints the wire delays of one net.
    Wire,
    /// Prints the slack of one net or of all through the cells that were put in, and whether the sinks have their
    /// wanted polarity.
    Time,
    /// Prints a best placement of repeaters on one net or on each, and the slack, and writes the netlist and the
    /// parasitics with the cells. Of one net it writes a certificate too, where one is named.
    Best,
    /// Prints the costs and slacks of which no placement of repeaters on one net, or on each, has both better, each
    /// with such a placement.
    Frontier,
    /// Checks a certificate of one net: that its placement is best, or that no placement is good.
    Check,
    /// Makes up a design of a given size.
    Gen,
    /// Prints the least slack of all paths through the nets and cells of a design, the first pin at which a path with
    /// it ends, and the least slack of the paths through each net.
    Sta,
    /// Cuts the resistors of one net or of all into parts, so that repeaters can stand along a wire: prints how many
    /// nodes each net has then, and writes the parasitics.
    Segment,
    /// Prints, of one net or of each, the cheapest placement of repeaters with slack of at least a target, and writes
    /// the netlist and the parasitics with the cells.
    Repair,
    /// Prints the total costs and worst slacks of which no choice of a placement on each net of a design has both
    /// better, each with such a choice. Where their names are given, it writes the netlist and the parasitics with the
    /// cells of the last one.
    Total,
    /// Prints a best choice of repeaters on one net and of one width for each of its wires.
    Width,
}

const WIRE_OPTIONS: [Opt; 2] = [Opt::Spef, Opt::Net];

const DESIGN_OPTIONS: [Opt; 5] = [Opt::Spef, Opt::Lib, Opt::Verilog, Opt::Cons, Opt::Net];

const CHANGE_OPTIONS: [Opt; 7] = [
    Opt::Spef,
    Opt::Lib,
    Opt::Verilog,
    Opt::Cons,
    Opt::Net,
    Opt::OutSpef,
    Opt::OutVerilog,
];

const CHECK_OPTIONS: [Opt; 6] = [
    Opt::Spef,
    Opt::Lib,
    Opt::Verilog,
    Opt::Cons,
    Opt::Net,
    Opt::Cert,
];

const SIZE_OPTIONS: [Opt; 1] = [Opt::Size];

const STA_OPTIONS: [Opt; 4] = [Opt::Spef, Opt::Lib, Opt::Verilog, Opt::Cons];

const SEGMENT_OPTIONS: [Opt; 4] = [Opt::Spef, Opt::Net, Opt::OutSpef, Opt::Parts];

const TOTAL_OPTIONS: [Opt; 7] = [
    Opt::Spef,
    Opt::Lib,
    Opt::Verilog,
    Opt::Cons,
    Opt::All,
    Opt::OutSpef,
    Opt::OutVerilog,
];

const WIDTH_OPTIONS: [Opt; 6] = [
    Opt::Spef,
    Opt::Lib,
    Opt::Verilog,
    Opt::Cons,
    Opt::Net,
    Opt::Widths,
];

/// What mode `time` may be given besides.
const TIME_EXTRAS: [Opt; 2] = [Opt::All, Opt::Prefix];

/// What mode `best` may be given besides.
const CHANGE_EXTRAS: [Opt; 3] = [Opt::All, Opt::Cert, Opt::Prefix];

/// What mode `frontier` may be given besides.
const FRONTIER_EXTRAS: [Opt; 2] = [Opt::All, Opt::Cap];

/// What mode `segment` may be given besides.
const SEGMENT_EXTRAS: [Opt; 1] = [Opt::All];

/// What mode `repair` may be given besides.
const REPAIR_EXTRAS: [Opt; 4] = [Opt::All, Opt::Cap, Opt::Prefix, Opt::Target];

/// What mode `total` may be given besides.
const TOTAL_EXTRAS: [Opt; 2] = [Opt::Cap, Opt::Prefix];

impl Mode {
    /// The options that the mode asks for. Some of these may be left out: `--net` where `--all` is given in its place,
    /// and both names of files that are written, where the mode may write nothing.
    pub(crate) fn required_options(self) -> &'static [Opt]
        ensures { result.now ≡ required self }
    {
        match self {
            Mode::Wire => &WIRE_OPTIONS,
            Mode::Time | Mode::Frontier => &DESIGN_OPTIONS,
            Mode::Best | Mode::Repair => &CHANGE_OPTIONS,
            Mode::Check => &CHECK_OPTIONS,
            Mode::Gen => &SIZE_OPTIONS,
            Mode::Sta => &STA_OPTIONS,
            Mode::Segment => &SEGMENT_OPTIONS,
            Mode::Total => &TOTAL_OPTIONS,
            Mode::Width => &WIDTH_OPTIONS,
        }
    }

    /// Those that it may be given besides.
    pub(crate) fn optional_options(self) -> &'static [Opt]
        ensures { result.now ≡ optional self }
    {
        match self {
            Mode::Wire | Mode::Check | Mode::Gen | Mode::Sta | Mode::Width => &[],
            Mode::Time => &TIME_EXTRAS,
            Mode::Best => &CHANGE_EXTRAS,
            Mode::Frontier => &FRONTIER_EXTRAS,
            Mode::Segment => &SEGMENT_EXTRAS,
            Mode::Repair => &REPAIR_EXTRAS,
            Mode::Total => &TOTAL_EXTRAS,
        }
    }

    /// Whether the mode may be given an option.
    pub(crate) fn allows(self, option: Opt) -> bool
        ensures { result ≡ may_be_given self option }
    {
        option == Opt::Mode
            || option.is_among(self.required_options())
            || option.is_among(self.optional_options())
    }

    /// Whether the mode prints what it finds also where no file is named that it is to write.
    pub(crate) fn may_write_nothing(self) -> bool
        ensures { result ≡ may_write_nothing self }
    {
        match self {
            Mode::Total => true,
            _ => false,
        }
    }

    /// The mode's name in the words.
    pub fn name(self) -> &'static str
        ensures { result.now ≡ mode_name self }
    {
        match self {
            Mode::Wire => "wire",
            Mode::Time => "time",
            Mode::Best => "best",
            Mode::Frontier => "frontier",
            Mode::Check => "check",
            Mode::Gen => "gen",
            Mode::Sta => "sta",
            Mode::Segment => "segment",
            Mode::Repair => "repair",
            Mode::Total => "total",
            Mode::Width => "width",
        }
    }
}

/// What the words ask for.
#[derive(Drop)]
pub struct Ask {
    pub mode: Mode,
    /// The name of the SPEF file.
    pub spef: Option<Text>,
    /// The name of the library.
    pub lib: Option<Text>,
    /// The name of the netlist.
    pub verilog: Option<Text>,
    /// The name of the constraints file.
    pub cons: Option<Text>,
    /// The name of the net.
    pub net: Option<Text>,
    /// Whether all nets are asked for, in the place of one.
    pub all: bool,
    /// The name of the SPEF file that is written.
    pub out_spef: Option<Text>,
    /// The name of the netlist that is written.
    pub out_verilog: Option<Text>,
    /// The name of the certificate: that which mode `best` writes, and mode `check` reads.
    pub cert: Option<Text>,
    /// The greatest cost of a placement, as it is written.
    pub cap: Option<Text>,
    /// What the names of cells that are put in begin with.
    pub prefix: Option<Text>,
    /// The size of the design that is made up, as it is written.
    pub size: Option<Text>,
    /// Into how many parts resistors are cut, as it is written.
    pub parts: Option<Text>,
    /// The slack (ps) that is enough, as it is written.
    pub target: Option<Text>,
    /// The name of the file that lists the widths of wires.
    pub widths: Option<Text>,
}

/// What the names of cells that are put in begin with, where the words do not say.
const PREFIX: &str = "vgi_";

impl Ask {
    /// The value of an option as a text, empty where it has none.
    pub fn text(&self, option: Opt) -> &str
        ensures { result.now ≡ text_for self.now option }
    {
        let value = match option {
            Opt::Mode => return self.mode.name(),
            Opt::Spef => &self.spef,
            Opt::Lib => &self.lib,
            Opt::Verilog => &self.verilog,
            Opt::Cons => &self.cons,
            Opt::Net => &self.net,
            Opt::All => return "",
            Opt::OutSpef => &self.out_spef,
            Opt::OutVerilog => &self.out_verilog,
            Opt::Cert => &self.cert,
            Opt::Cap => &self.cap,
            Opt::Prefix => &self.prefix,
            Opt::Size => &self.size,
            Opt::Parts => &self.parts,
            Opt::Target => &self.target,
            Opt::Widths => &self.widths,
        };
        match value {
            Some(text) => text.as_str(),
            None => "",
        }
    }
}

impl Ask {
    /// What the names of cells that are put in begin with: the value of its option, or `vgi_`.
    pub fn prefix(&self) -> &str
        ensures { result.now ≡ prefix_of self.now }
    {
        match &self.prefix {
            Some(text) => text.as_str(),
            None => PREFIX,
        }
    }

    /// The greatest cost of a placement (thousandths), if there is one.
    pub fn cap(&self) -> Option<u64>
        ensures { result ≡ cap_of self.now }
    {
        cap_in(self.text(Opt::Cap).as_bytes())
    }

    /// The size of the design that is to be made up, which is 1 to 4000 in mode `gen`. It is 0 where there is none.
    pub fn size(&self) -> u32
        ensures { result ≡ size_of self.now }
    {
        size_in(self.text(Opt::Size).as_bytes()).unwrap_or(0)
    }

    /// Into how many parts resistors are to be cut, which is 1 to 64 in mode `segment`. It is 0 where there is none.
    pub fn parts(&self) -> u32
        ensures { result ≡ parts_of self.now }
    {
        parts_in(self.text(Opt::Parts).as_bytes()).unwrap_or(0)
    }

    /// The slack (zs) that is enough; 0 where the words do not say.
    pub fn target(&self) -> i128
        ensures { result ≡ target_of self.now }
    {
        target_in(self.text(Opt::Target).as_bytes()).unwrap_or(0)
    }
}

/// Why the words ask for nothing: the first of these, in this order.
#[derive(Clone, Copy, Debug, PartialEq, Eq)]
pub enum WordFault {
    /// Some word is neither an option with its value, nor its value, nor a flag alone, or an option is given twice.
    Unread,
    /// The mode asks for this option, or it is the mode, and it is not given. Not missing are `--net` where `--all` is
    /// given in its place, and in mode `total` `--out-spef` and `--out-verilog` where neither is given.
    Missing(Opt),
    /// The option is given, and the mode has no use for it, or it is `--all` and `--net` is given too, or it is
    /// `--cert` and `--all` is.
    Excluded(Opt),
    /// The option's value is empty, or is no mode; or a cap is not 1 to 18 digits; or a prefix is not a letter or `_`,
    /// followed by at most 31 letters, digits or `_`; or a size is not one to four digits, which write 1 to 4000; or
    /// parts are not one or two digits, which write 1 to 64; or a target is no number of picoseconds, with a sign or
    /// without, of at most 10^23 zeptoseconds in size.
    BadValue(Opt),
    /// Both options name one file.
    Equal(Opt, Opt),
    /// Out of memory.
    Memory,
}

impl From<Memory> for WordFault {
    ghost from_gives = { λ _ fault. fault ≡ out_of_memory };

    fn from(_: Memory) -> Self {
        WordFault::Memory
    }
}

/// Words that `clap` refuses are unread, whatever it has against them.
impl From<clap::Error> for WordFault {
    ghost from_gives = { λ error fault. fault ≡ fault_for (kind_of error) };

    fn from(error: clap::Error) -> Self {
        match error.kind() {
            ErrorKind::OutOfMemory => WordFault::Memory,
            _ => WordFault::Unread,
        }
    }
}
