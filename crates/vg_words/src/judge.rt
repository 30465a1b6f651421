//! What is asked for, or the first reason against it.
ghost use Rattle.std.specs.Prelude.{◌≡◌, Some, None, IfOk, option_map};
ghost use Rattle.std.specs.List.{find, list_all};
ghost use Rattle.vg_words.specs.Options.{mode_of, options, file_options, required};
ghost use Rattle.vg_scan.specs.Prefixes.{is_letter, is_name_byte, is_prefix};
ghost use Rattle.vg_words.specs.Request.{texts, flag_value, may_be_left, has_no_use_beside, is_given, is_missing, is_excluded, is_bad_value, is_bad, are_equal, first_equal, fault_in, Judges, ReadsWords};
ghost use Rattle.vg_words.specs.declared.option.Opt.{Opt};
ghost use Rattle.vg_words.specs.Views.{given_by};

use crate::ask::{Ask, Mode, WordFault};
use crate::cap::cap_in;
use crate::count::{parts_in, size_in};
use crate::given::Given;
use crate::option::{FILE_OPTIONS, OPTIONS, Opt};
use crate::target::target_in;
use std::alloc::Global;
use vg_num::{Memory, Text};

/// The mode of this name.
fn mode_of(name: &str) -> Option<Mode>
    ensures { result ≡ mode_of name.now }
{
    if name == "wire" {
        Some(Mode::Wire)
    } else if name == "time" {
        Some(Mode::Time)
    } else if name == "best" {
        Some(Mode::Best)
    } else if name == "frontier" {
        Some(Mode::Frontier)
    } else if name == "check" {
        Some(Mode::Check)
    } else if name == "gen" {
        Some(Mode::Gen)
    } else if name == "sta" {
        Some(Mode::Sta)
    } else if name == "segment" {
        Some(Mode::Segment)
    } else if name == "repair" {
        Some(Mode::Repair)
    } else if name == "total" {
        Some(Mode::Total)
    } else if name == "width" {
        Some(Mode::Width)
    } else {
        None
    }
}

fn is_given(given: &Given<'_>, option: Opt) -> bool
    ensures { result ≡ is_given (given_by given.now) option }
{
    given.get(option).is_some()
}

/// Whether an option that the mode asks for may be left out: `--net` where `--all` is given in its place, and
/// `--out-spef` and `--out-verilog` together, where the mode may write nothing.
fn may_be_left(mode: Mode, given: &Given<'_>, option: Opt) -> bool
    ensures { result ≡ may_be_left mode (given_by given.now) option }
{
    match option {
        Opt::Net => is_given(given, Opt::All) && mode.allows(Opt::All),
        Opt::OutSpef => mode.may_write_nothing() && !is_given(given, Opt::OutVerilog),
        Opt::OutVerilog => mode.may_write_nothing() && !is_given(given, Opt::OutSpef),
        _ => false,
    }
}

fn is_missing(mode: Mode, given: &Given<'_>, option: Opt) -> bool
    ensures { result ≡ is_missing mode (given_by given.now) option }
{
    !(is_given(given, option) || may_be_left(mode, given, option))
}

/// Whether an option has no use beside another that is given: `--all` has none beside `--net`, and `--cert` none beside
/// `--all`.
fn has_no_use_beside(given: &Given<'_>, option: Opt) -> bool
    ensures { result ≡ has_no_use_beside (given_by given.now) option }
{
    match option {
        Opt::All => is_given(given, Opt::Net),
        Opt::Cert => is_given(given, Opt::All),
        _ => false,
    }
}

fn is_excluded(mode: Mode, given: &Given<'_>, option: Opt) -> bool
    ensures { result ≡ is_excluded mode (given_by given.now) option }
{
    is_given(given, option) && (!mode.allows(option) || has_no_use_beside(given, option))
}

/// Whether a byte is a letter or `_`.
fn is_letter(b: u8) -> bool
    ensures { result ≡ is_letter b }
{
    b.is_ascii_alphabetic() || b == b'_'
}

/// Whether a byte may stand in a prefix.
fn is_name_byte(b: u8) -> bool
    ensures { result ≡ is_name_byte b }
{
    is_letter(b) || b.is_ascii_digit()
}

fn are_name_bytes(bytes: &[u8]) -> bool
    ensures { result ≡ list_all is_name_byte bytes.now }
{
    bytes.iter().all(|b| is_name_byte(*b))
}

/// Whether a text is a letter or `_`, followed by at most 31 letters, digits or `_`.
fn is_prefix(text: &[u8]) -> bool
    ensures { result ≡ is_prefix text.now }
{
    let [first, rest @ ..] = text else {
        return false;
    };
    rest.len() <= 31 && is_letter(*first) && are_name_bytes(rest)
}

fn is_bad_value(option: Opt, value: &str) -> bool
    ensures { result ≡ is_bad_value option value.now }
{
    match option {
        Opt::All => false,
        Opt::Cap => cap_in(value.as_bytes()).is_none(),
        Opt::Prefix => !is_prefix(value.as_bytes()),
        Opt::Size => size_in(value.as_bytes()).is_none(),
        Opt::Parts => parts_in(value.as_bytes()).is_none(),
        Opt::Target => target_in(value.as_bytes()).is_none(),
        _ => value.is_empty(),
    }
}

fn is_bad(given: &Given<'_>, option: Opt) -> bool
    ensures { result ≡ is_bad (given_by given.now) option }
{
    match given.get(option) {
        None => false,
        Some(value) => is_bad_value(option, value),
    }
}

fn first_missing(mode: Mode, given: &Given<'_>) -> Option<Opt>
    ensures { result ≡ find (is_missing mode (given_by given.now)) (required mode) }
{
    mode.required_options()
        .iter()
        .copied()
        .find(|option| is_missing(mode, given, *option))
}

fn first_excluded(mode: Mode, given: &Given<'_>) -> Option<Opt>
    ensures { result ≡ find (is_excluded mode (given_by given.now)) options }
{
    OPTIONS
        .iter()
        .copied()
        .find(|option| is_excluded(mode, given, *option))
}

fn first_bad(given: &Given<'_>) -> Option<Opt>
    ensures { result ≡ find (is_bad (given_by given.now)) options }
{
    OPTIONS
        .iter()
        .copied()
        .find(|option| is_bad(given, *option))
}

fn are_equal(a: Option<&str>, b: Option<&str>) -> bool
    ensures { result ≡ are_equal (option_map (λ text. text.now) a.entry) (option_map (λ text. text.now) b.entry) }
{
    match (a, b) {
        (Some(a), Some(b)) => a == b,
        _ => false,
    }
}

fn have_equal(given: &Given<'_>, one: Opt, other: Opt) -> bool
    ensures { result ≡ are_equal (given_by given.now one) (given_by given.now other) }
{
    are_equal(given.get(one), given.get(other))
}

/// The first of these options that has the same value as one.
fn first_equal_to(given: &Given<'_>, one: Opt, others: &[Opt]) -> Option<Opt>
    ensures { result ≡ find (λ other. are_equal (given_by given.now one) (given_by given.now other)) others.now }
{
    others
        .iter()
        .copied()
        .find(|other| have_equal(given, one, *other))
}

/// The first two file options that name one file.
fn first_equal(given: &Given<'_>) -> Option<(Opt, Opt)>
    ensures { result ≡ first_equal (given_by given.now) file_options }
{
    let files = FILE_OPTIONS.as_slice();
    'file: for at in 0..files.len() {
        if let Some(other) = first_equal_to(given, files[at], &files[at + 1..]) {
            return Some((files[at], other));
        }
    }
    None
}

/// The first reason against what is given for a mode.
fn fault_in(mode: Mode, given: &Given<'_>) -> Option<WordFault>
    ensures { result ≡ fault_in mode (given_by given.now) }
{
    if let Some(option) = first_missing(mode, given) {
        return Some(WordFault::Missing(option));
    }
    if let Some(option) = first_excluded(mode, given) {
        return Some(WordFault::Excluded(option));
    }
    if let Some(option) = first_bad(given) {
        return Some(WordFault::BadValue(option));
    }
    match first_equal(given) {
        Some((one, other)) => Some(WordFault::Equal(one, other)),
        None => None,
    }
}

/// The mode that is asked for, or the first reason against what is given.
#[tactic(auto, unfolding(crate::specs::Request::fault_of))]
fn judge(given: &Given<'_>) -> Result<Mode, WordFault>
    ensures { Judges result (given_by given.now) }
{
    let Some(name) = given.get(Opt::Mode) else {
        return Err(WordFault::Missing(Opt::Mode));
    };
    let Some(mode) = mode_of(name) else {
        return Err(WordFault::BadValue(Opt::Mode));
    };
    match fault_in(mode, given) {
        None => Ok(mode),
        Some(fault) => Err(fault),
    }
}

/// Copies a text, where there is one.
fn text_of(alloc: Global, text: Option<&str>) -> Result<Option<Text>, Memory>
    ensures { IfOk result (λ copy. copy ≡ option_map (λ bytes. bytes.now) text.entry) }
{
    match text {
        None => Ok(None),
        Some(text) => Ok(Some(Text::from_string(String::from_str(alloc, text)?))),
    }
}

fn ask_of(alloc: Global, mode: Mode, given: &Given<'_>) -> Result<Ask, Memory>
    ensures mode { IfOk result (λ ask. ask.mode ≡ mode) }
    ensures spef { IfOk result (λ ask. ask.spef ≡ given_by given.now Opt.Spef) }
    ensures lib { IfOk result (λ ask. ask.lib ≡ given_by given.now Opt.Lib) }
    ensures verilog { IfOk result (λ ask. ask.verilog ≡ given_by given.now Opt.Verilog) }
    ensures cons { IfOk result (λ ask. ask.cons ≡ given_by given.now Opt.Cons) }
    ensures net { IfOk result (λ ask. ask.net ≡ given_by given.now Opt.Net) }
    ensures all { IfOk result (λ ask. flag_value ask.all ≡ given_by given.now Opt.All) }
    ensures out_spef { IfOk result (λ ask. ask.out_spef ≡ given_by given.now Opt.OutSpef) }
    ensures out_verilog { IfOk result (λ ask. ask.out_verilog ≡ given_by given.now Opt.OutVerilog) }
    ensures cert { IfOk result (λ ask. ask.cert ≡ given_by given.now Opt.Cert) }
    ensures cap { IfOk result (λ ask. ask.cap ≡ given_by given.now Opt.Cap) }
    ensures prefix { IfOk result (λ ask. ask.prefix ≡ given_by given.now Opt.Prefix) }
    ensures size { IfOk result (λ ask. ask.size ≡ given_by given.now Opt.Size) }
    ensures parts { IfOk result (λ ask. ask.parts ≡ given_by given.now Opt.Parts) }
    ensures target { IfOk result (λ ask. ask.target ≡ given_by given.now Opt.Target) }
    ensures widths { IfOk result (λ ask. ask.widths ≡ given_by given.now Opt.Widths) }
{
    let spef = text_of(alloc, given.get(Opt::Spef))?;
    let lib = text_of(alloc, given.get(Opt::Lib))?;
    let verilog = text_of(alloc, given.get(Opt::Verilog))?;
    let cons = text_of(alloc, given.get(Opt::Cons))?;
    let net = text_of(alloc, given.get(Opt::Net))?;
    let out_spef = text_of(alloc, given.get(Opt::OutSpef))?;
    let out_verilog = text_of(alloc, given.get(Opt::OutVerilog))?;
    let cert = text_of(alloc, given.get(Opt::Cert))?;
    let cap = text_of(alloc, given.get(Opt::Cap))?;
    let prefix = text_of(alloc, given.get(Opt::Prefix))?;
    let size = text_of(alloc, given.get(Opt::Size))?;
    let parts = text_of(alloc, given.get(Opt::Parts))?;
    let target = text_of(alloc, given.get(Opt::Target))?;
    let widths = text_of(alloc, given.get(Opt::Widths))?;
    Ok(Ask {
        mode,
        spef,
        lib,
        verilog,
        cons,
        net,
        all: is_given(given, Opt::All),
        out_spef,
        out_verilog,
        cert,
        cap,
        prefix,
        size,
        parts,
        target,
        widths,
    })
}

/// Reads the words of the command line, without the program's own name.
///
/// Each option is `--name value` or `--name=value`, in any order, at most once; a value that stands in a word of its
/// own does not begin with `-`. The option `--all` is that word alone. Mode `wire` asks for `--spef` and `--net`, modes
/// `time` and `frontier` for `--lib`, `--verilog` and `--cons` too, mode `best` besides for `--out-spef` and
/// `--out-verilog`, and mode `check` in place of these two for `--cert`. Modes `time` and `best` may be given
/// `--prefix`, mode `frontier` may be given `--cap`, and all three `--all` in the place of `--net`; mode `best` may be
/// given `--cert` too, but not beside `--all`. Mode `gen` asks for `--size` alone, and mode `sta` for `--spef`,
/// `--lib`, `--verilog` and `--cons` alone. Mode `segment` asks for `--spef`, `--net`, `--out-spef` and `--parts`, and
/// may be given `--all` in the place of `--net`. Mode `repair` asks for what mode `best` asks for, and may be given
/// `--all` in the place of `--net`, `--cap`, `--prefix` and `--target`. Mode `total` asks for `--spef`, `--lib`,
/// `--verilog`, `--cons` and `--all`, and for both of `--out-spef` and `--out-verilog` or neither, and may be given
/// `--cap` and `--prefix`. Mode `width` asks for `--spef`, `--lib`, `--verilog`, `--cons`, `--net` and `--widths`. The
/// faults come in the order of `WordFault`, and of one kind the first option in the order of `Opt`. Answers `Memory`
/// where there is no room.
pub fn read_words(alloc: Global, words: &[String]) -> Result<Ask, WordFault>
    ensures { ReadsWords result (texts words.now) }
{
    let given = Given::of(alloc, words)?;
    let mode = judge(&given)?;
    Ok(ask_of(alloc, mode, &given)?)
}
