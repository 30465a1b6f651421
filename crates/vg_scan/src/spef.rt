//! The names of SPEF, whose bytes may be escaped.

ghost use Rattle.std.specs.Prelude.{◌≡◌, ◌+◌, ◌∷◌, List, ℕ, Some, None, Err, length, option_map, MatchOption, IfSome, IfOk, OnOk};
ghost use Rattle.std.specs.List.{AllPass};
ghost use Rattle.vg_scan.specs.Names.{plain, spelled, canonical, last_bare, is_ordinary, IsBad, IsNowhereBare, IsLastBare};
ghost use Rattle.vg_scan.specs.Readings.{IsReadAs, goes_on};

use crate::chars::Chars;
use crate::fault::NameFault;
use crate::lines::Span;
use crate::name::Name;
use std::alloc::Global;

/// What an unescaped byte is in a canonical name.
fn plain_byte(chars: &Chars, byte: u8) -> u8
    ensures { result ≡ plain chars.now byte }
{
    if byte == chars.divider {
        b'/'
    } else if byte == chars.bus_left {
        b'['
    } else if byte == chars.bus_right {
        b']'
    } else {
        byte
    }
}

/// What a byte of a text with escapes says.
#[derive(Clone, Copy)]
pub(crate) enum Reading {
    /// It escapes the next one.
    Escape,
    /// It stands for this byte of the name.
    Stands(u8),
    /// It is a quote, which no name has.
    Quote,
}

#[tactic(auto, unfolding(crate::specs::Names::spelled))]
fn read_byte(chars: &Chars, escaped: bool, byte: u8) -> Reading
    ensures spells { (rest : List ℕ) → spelled chars.now escaped (byte ∷ rest) ≡ goes_on chars.now result rest }
    ensures read { IsReadAs escaped byte result }
{
    if escaped {
        return Reading::Stands(byte);
    }
    match byte {
        b'\\' => Reading::Escape,
        b'"' => Reading::Quote,
        _ => Reading::Stands(plain_byte(chars, byte)),
    }
}

/// Puts the canonical name of a text in place of what a list holds, as `spef_name` does, in memory that may be used
/// again.
///
/// Answers `Bad` where `spef_name` does, and `Memory` where there is no room; the list then holds no name.
pub fn spell_name(text: &[u8], chars: &Chars, name: &mut Vec<u8>) -> Result<(), NameFault>
    ensures name { OnOk result (canonical chars.now text.now ≡ Some name.new.items) }
    ensures bad { result ≡ Err NameFault.Bad → (canonical chars.now text.now ≡ None) × IsBad text.now }
    ensures good { OnOk result (¬ IsBad text.now) }
    ensures ordinary { AllPass (is_ordinary chars.now) text.now → OnOk result (name.new.items ≡ text.now) }
{
    if text.is_empty() {
        return Err(NameFault::Bad);
    }
    name.clear();
    let mut escaped = false;
    'byte: for byte in text {
        match read_byte(chars, escaped, *byte) {
            Reading::Escape => {
                escaped = true;
            }
            Reading::Quote => return Err(NameFault::Bad),
            Reading::Stands(byte) => {
                let Ok(()) = name.push(byte) else {
                    return Err(NameFault::Memory);
                };
                escaped = false;
            }
        }
    }
    if escaped {
        return Err(NameFault::Bad);
    }
    Ok(())
}

/// The canonical name of a text with escapes (IEEE Std 1481): `/` parts its instances, and `[` and `]` enclose a bit,
/// whatever the file takes for them. A backslash is dropped, and the byte after it is kept as it is.
///
/// Answers `Bad` where the text is empty, ends with a backslash that escapes nothing, or has an unescaped quote, and
/// `Memory` where there is no room.
pub fn spef_name(alloc: Global, text: &[u8], chars: &Chars) -> Result<Name, NameFault>
    ensures name { IfOk result (λ name. canonical chars.now text.now ≡ Some name) }
    ensures bad { result ≡ Err NameFault.Bad → (canonical chars.now text.now ≡ None) × IsBad text.now }
    ensures good { OnOk result (¬ IsBad text.now) }
    ensures ordinary { AllPass (is_ordinary chars.now) text.now → IfOk result (λ name. name ≡ text.now) }
{
    let Ok(mut bytes) = Vec::with_capacity(alloc, text.len()) else {
        return Err(NameFault::Memory);
    };
    match spell_name(text, chars, &mut bytes) {
        Err(fault) => Err(fault),
        Ok(()) => Ok(Name::from_vec(bytes)),
    }
}

/// Where a byte stands unescaped for the last time.
fn last_bare(text: &[u8], byte: u8) -> Option<usize>
    ensures { result ≡ last_bare byte text.now (length text.now) }
{
    let mut last = None;
    let mut escaped = false;
    'place: for (at, found) in text.iter().enumerate() {
        if *found == byte && !escaped {
            last = Some(at);
        }
        escaped = *found == b'\\' && !escaped;
    }
    last
}

/// The parts of a node's text before and after its last unescaped delimiter. `None`: it has no unescaped one.
pub fn split_node(text: &[u8], delimiter: u8) -> Option<(Span, Span)>
    ensures place { option_map (λ parts. parts.0.to) result ≡ last_bare delimiter text.now (length text.now) }
    ensures last { MatchOption result (IsNowhereBare delimiter text.now 0) (λ parts.
        IsLastBare delimiter text.now parts.0.to) }
    ensures parts { IfSome result (λ parts. (parts.0.from ≡ 0) × (parts.1.from ≡ parts.0.to + 1)
        × (parts.1.to ≡ length text.now)) }
{
    let end = text.len();
    match last_bare(text, delimiter) {
        None => None,
        Some(at) => Some((
            Span { from: 0, to: at },
            Span {
                from: at + 1,
                to: end,
            },
        )),
    }
}
