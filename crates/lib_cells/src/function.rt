//! The function of an output pin that is an input, inverted or not.

ghost use Rattle.std.specs.Prelude.{◌≡◌, ◌==◌, ◌+◌, ◌≤◌, Bool, filter, take, drop, length, zip, MatchOption, IfSome};
ghost use Rattle.std.specs.List.{count_by, list_all};
ghost use Rattle.vg_scan.specs.Lines.{is_ink};
ghost use Rattle.lib_cells.specs.Function.{ReducesTo};
ghost use Rattle.lib_cells.specs.Reducing.{is_front, is_back, is_not, agree, stands_after, is_balanced, fits, inverts};

fn is_ink(byte: u8) -> bool
    ensures { result ≡ is_ink byte }
{
    byte != b' ' && byte != b'\t'
}

fn is_front(byte: u8) -> bool
    ensures { result ≡ is_front byte }
{
    byte == b'!' || byte == b'('
}

fn is_back(byte: u8) -> bool
    ensures { result ≡ is_back byte }
{
    byte == b')' || byte == b'\''
}

fn is_not(byte: u8) -> bool
    ensures { result ≡ is_not byte }
{
    byte == b'!' || byte == b'\''
}

fn count_ink(text: &[u8]) -> usize
    ensures count { result ≡ length (filter is_ink text.now) }
    ensures within { result ≤ length text.now }
{
    text.iter().filter(|byte| is_ink(**byte)).count()
}

fn count_fronts(text: &[u8]) -> usize
    ensures count { result ≡ count_by is_front text.now }
    ensures within { result ≤ length text.now }
{
    text.iter().filter(|byte| is_front(**byte)).count()
}

fn count_nots(text: &[u8]) -> usize
    ensures count { result ≡ count_by is_not text.now }
    ensures within { result ≤ length text.now }
{
    text.iter().filter(|byte| is_not(**byte)).count()
}

fn count(text: &[u8], byte: u8) -> usize
    ensures count { result ≡ count_by (λ b. b == byte) text.now }
    ensures within { result ≤ length text.now }
{
    text.iter().filter(|found| **found == byte).count()
}

/// Whether the first bytes, so many, may stand before a name.
fn begins(text: &[u8], front: usize) -> bool
    ensures { result ≡ list_all is_front (take front (filter is_ink text.now)) }
{
    text.iter()
        .copied()
        .filter(|byte| is_ink(*byte))
        .take(front)
        .all(is_front)
}

/// Whether the bytes after the first, so many, may stand after a name.
fn ends(text: &[u8], from: usize) -> bool
    ensures { result ≡ list_all is_back (drop from (filter is_ink text.now)) }
{
    text.iter()
        .copied()
        .filter(|byte| is_ink(*byte))
        .skip(from)
        .all(is_back)
}

/// Whether the bytes after the first, so many, are those of a name, as far as both go.
fn has_name(text: &[u8], from: usize, name: &[u8]) -> bool
    ensures { result ≡ agree (drop from (filter is_ink text.now)) name.now }
{
    text.iter()
        .copied()
        .filter(|byte| is_ink(*byte))
        .skip(from)
        .zip(name.iter().copied())
        .all(|(byte, own)| byte == own)
}

/// Whether the name stands after the first bytes, so many, which may stand before it, and all others may stand after
/// it.
fn stands_after(front: usize, text: &[u8], name: &[u8]) -> bool
    requires { front ≤ length text.now }
    ensures { result ≡ stands_after front (filter is_ink text.now) name.now }
{
    let to = front + name.len();
    to <= count_ink(text) && begins(text, front) && has_name(text, front, name) && ends(text, to)
}

/// Whether as many brackets open as close outside the name.
fn is_balanced(text: &[u8], name: &[u8]) -> bool
    ensures { result ≡ is_balanced (filter is_ink text.now) name.now }
{
    count(text, b'(') + count(name, b')') == count(text, b')') + count(name, b'(')
}

/// Whether a text reduces to a name. What stands before the name tells where it stands: all of that is `!` and `(`, and
/// after the name is none of these.
fn fits(text: &[u8], name: &[u8]) -> bool
    ensures { result ≡ fits (filter is_ink text.now) name.now }
{
    let own = count_fronts(name);
    let all = count_fronts(text);
    if all < own {
        return false;
    }
    is_balanced(text, name) && stands_after(all - own, text, name)
}

/// Whether an odd number of bytes inverts, outside the name.
fn inverts(text: &[u8], name: &[u8]) -> bool
    ensures { result ≡ inverts (filter is_ink text.now) name.now }
{
    (count_nots(text) + count_nots(name)) % 2 == 1
}

/// Whether the function of a pin inverts, where it reduces to an input: it is the input's name, such a function in
/// brackets, `!` before such a function, or such a function followed by `'`, and each `!` and each `'` inverts. `None`:
/// it does not reduce to the input. Blanks in the function are passed over.
pub fn reduces_to(text: &[u8], input: &[u8]) -> Option<bool>
    ensures reduces { MatchOption result ((inverted : Bool) → ReducesTo text.now input.now inverted → ⊥)
        (ReducesTo text.now input.now) }
    ensures only { IfSome result (λ inverted. (other : Bool) → ReducesTo text.now input.now other → other ≡ inverted) }
{
    if fits(text, input) {
        Some(inverts(text, input))
    } else {
        None
    }
}
