//! Lines that go on after a backslash, joined in place.

ghost use Rattle.std.specs.Prelude.{◌≡◌, ◌==◌, ◌+◌, ◌-◌, ◌<◌, ◌≤◌, ◌++◌, length, take, drop, ℕ, slice_index, replicate, false};
ghost use Rattle.std.specs.List.{position};
ghost use Rattle.lib_text.specs.Joined.{is_at, is_return_at, line_end_length, blank_length, joined, is_mark};
ghost use Rattle.lib_text.specs.Joining.{Joins};

use memchr::memchr2;

fn is_at(text: &[u8], at: usize, byte: u8) -> bool
    requires { 0 < byte }
    ensures { result ≡ is_at text.now at byte }
{
    at < text.len() && text[at] == byte
}

fn is_return_at(text: &[u8], at: usize) -> bool
    requires { at < 2 }
    ensures { result ≡ is_return_at text.now at }
{
    is_at(text, at, b'\r') && is_at(text, at + 1, b'\n')
}

fn line_end_length(text: &[u8], at: usize) -> usize
    requires { at < 2 }
    ensures { result ≡ line_end_length text.now at }
{
    if is_at(text, at, b'\n') {
        return 1;
    }
    if is_return_at(text, at) { 2 } else { 0 }
}

fn blank_length(text: &[u8]) -> usize
    ensures length { result ≡ blank_length text.now }
    ensures within { result ≤ length text.now }
{
    let next = line_end_length(text, 1);
    if is_at(text, 0, b'\\') && 0 < next {
        return 1 + next;
    }
    if is_return_at(text, 0) { 1 } else { 0 }
}

/// Puts spaces from one place to another.
fn blank_part(text: &mut [u8], at: usize, to: usize)
    requires { (at ≤ to) × (to ≤ length text.old) }
    ensures front { take to text.new ≡ take at text.old ++ replicate (to - at) 32 }
    ensures rest { drop to text.new ≡ drop to text.old }
    ensures long { length text.new ≡ length text.old }
{
    'place: for place in at..to {
        text[place] = b' ';
    }
}

fn first_mark(text: &[u8]) -> Option<usize>
    ensures { result ≡ position is_mark text.now }
{
    memchr2(b'\\', b'\r', text)
}

/// Where the first byte stands, from a place on, that may begin what is blank; else the text's end.
fn mark_at(text: &[u8], at: usize) -> usize
    requires { at ≤ length text.now }
    ensures plain { (k : ℕ) → at ≤ k → k < result → is_mark (slice_index text.now k) ≡ false }
    ensures place { (at ≤ result) × (result ≤ length text.now) }
{
    match first_mark(&text[at..]) {
        None => text.len(),
        Some(offset) => at + offset,
    }
}

/// Takes the byte at a place, or makes it blank with what belongs to it.
fn turn_mark(text: &mut [u8], at: usize) -> usize
    requires { at < length text.old }
    ensures { Joins text.old text.new at result }
{
    let length = blank_length(&text[at..]);
    if length == 0 {
        return at + 1;
    }
    blank_part(text, at, at + length);
    at + length
}

/// Takes the bytes up to the next that may begin what is blank; or that byte.
fn turn(text: &mut [u8], at: usize) -> usize
    requires { at < length text.old }
    ensures { Joins text.old text.new at result }
{
    let to = mark_at(text, at);
    if to > at { to } else { turn_mark(text, at) }
}

/// Puts spaces in place of each backslash that stands just before a line's end, and of that end; and in place of each
/// carriage return that stands just before a newline.
pub(crate) fn join_lines(text: &mut [u8])
    ensures join { text.new ≡ joined text.old }
    ensures length { length text.new ≡ length text.old }
{
    let mut at = 0;
    'byte: while at < text.len() {
        at = turn(text, at);
    }
}
