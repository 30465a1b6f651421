ghost use Rattle.std.specs.Prelude.{◌≡◌};
ghost use Rattle.std.specs.List.{list_any};
ghost use Rattle.vg_words.specs.Command.{action_for, long_name};
ghost use Rattle.vg_words.specs.Options.{name_of, is_flag, is_same, options};

use clap::ArgAction;

/// An option of the command line. Refusals name the first in this order.
#[derive(Clone, Copy, Debug, PartialEq, Eq)]
pub enum Opt {
    /// What to do.
    Mode,
    /// The name of the SPEF file.
    Spef,
    /// The name of the library.
    Lib,
    /// The name of the netlist.
    Verilog,
    /// The name of the constraints file.
    Cons,
    /// The name of the net.
    Net,
    /// All nets, in the place of one. It has no value.
    All,
    /// The name of the SPEF file that is written.
    OutSpef,
    /// The name of the netlist that is written.
    OutVerilog,
    /// The name of the certificate.
    Cert,
    /// The greatest cost of a placement (thousandths).
    Cap,
    /// What the names of cells that were put in begin with.
    Prefix,
    /// The size of the design that is made up.
    Size,
    /// Into how many parts resistors are cut.
    Parts,
    /// The slack (ps) that is enough. A negative one stands in one word with the option, as in `--target=-100`: a word
    /// of its own that begins with `-` is no value.
    Target,
    /// The name of the file that lists the widths of wires.
    Widths,
}

/// All options, in order.
pub const OPTIONS: [Opt; 16] = [
    Opt::Mode,
    Opt::Spef,
    Opt::Lib,
    Opt::Verilog,
    Opt::Cons,
    Opt::Net,
    Opt::All,
    Opt::OutSpef,
    Opt::OutVerilog,
    Opt::Cert,
    Opt::Cap,
    Opt::Prefix,
    Opt::Size,
    Opt::Parts,
    Opt::Target,
    Opt::Widths,
];

/// Those that name files.
pub const FILE_OPTIONS: [Opt; 8] = [
    Opt::Spef,
    Opt::Lib,
    Opt::Verilog,
    Opt::Cons,
    Opt::OutSpef,
    Opt::OutVerilog,
    Opt::Cert,
    Opt::Widths,
];

/// All options, in the order in which refusals name them.
pub fn options() -> &'static [Opt]
    ensures { result.now ≡ options }
{
    &OPTIONS
}

impl Opt {
    /// The option as a word.
    pub fn name(self) -> &'static str
        ensures { result.now ≡ name_of self }
    {
        match self {
            Opt::Mode => "--mode",
            Opt::Spef => "--spef",
            Opt::Lib => "--lib",
            Opt::Verilog => "--verilog",
            Opt::Cons => "--cons",
            Opt::Net => "--net",
            Opt::All => "--all",
            Opt::OutSpef => "--out-spef",
            Opt::OutVerilog => "--out-verilog",
            Opt::Cert => "--cert",
            Opt::Cap => "--cap",
            Opt::Prefix => "--prefix",
            Opt::Size => "--size",
            Opt::Parts => "--parts",
            Opt::Target => "--target",
            Opt::Widths => "--widths",
        }
    }

    /// The option's name without its hyphens.
    pub(crate) fn long(self) -> &'static str
        ensures { result.now ≡ long_name self }
    {
        &self.name()[2..]
    }

    /// Whether it has no value.
    pub(crate) fn is_flag(self) -> bool
        ensures { result ≡ is_flag self }
    {
        self == Opt::All
    }

    /// What its use does: it sets its value, or tells that the flag is given.
    pub(crate) fn action(self) -> ArgAction
        ensures { result ≡ action_for self }
    {
        if self.is_flag() {
            ArgAction::SetTrue
        } else {
            ArgAction::Set
        }
    }

    /// Whether it is one of some options.
    pub(crate) fn is_among(self, options: &[Opt]) -> bool
        ensures { result ≡ list_any (is_same self) options.now }
    {
        options.iter().any(|other| self.is_same(*other))
    }

    /// Whether both are one option.
    pub(crate) fn is_same(self, other: Opt) -> bool
        ensures { result ≡ is_same self other }
    {
        self == other
    }
}
