//! Hashes of texts.

ghost use Rattle.std.specs.Prelude.{◌≡◌, ◌≤◌, length};
ghost use Rattle.name_tables.specs.Hashes.{hash_of, number_hash, mixed_hash, word_of, hash_with, upper_half, digits_start, without_close};

/// A number whose products mix well (G. L. Steele and S. Vigna, "Computationally Easy, Spectrally Good Multipliers for
/// Congruential Pseudorandom Number Generators").
const MULTIPLIER: u64 = 0xF135_7AEA_2E62_A9C5;

/// A hash of digits that rises by one from a number to the next.
fn number_hash(digits: &[u8]) -> u32
    ensures { result ≡ number_hash digits.now }
{
    let mut hash = 0u32;
    'digit: for digit in digits {
        hash = hash.wrapping_mul(10).wrapping_add(u32::from(*digit));
    }
    hash
}

/// A hash with one word more. The upper bits of a product depend on the most, and so they are mixed into the lower
/// ones.
fn hash_with(hash: u64, word: u64) -> u64
    ensures { result ≡ hash_with hash word }
{
    let product = (hash ^ word).wrapping_mul(MULTIPLIER);
    product ^ (product >> 32)
}

/// A few bytes as one word.
fn word_of(bytes: &[u8]) -> u64
    ensures { result ≡ word_of bytes.now }
{
    let mut word = 0u64;
    'byte: for byte in bytes {
        word = word.wrapping_mul(256).wrapping_add(u64::from(*byte));
    }
    word
}

/// The upper half of a hash that is multiplied once more.
fn upper_half(hash: u64) -> u32
    ensures { result ≡ upper_half hash }
{
    (hash.wrapping_mul(MULTIPLIER) >> 32) as u32
}

/// The hash of any text, eight bytes at a time.
fn mixed_hash(text: &[u8]) -> u32
    ensures { result ≡ mixed_hash text.now }
{
    let (words, rest) = text.as_chunks::<8>();
    let mut hash = 0u64;
    'word: for word in words {
        hash = hash_with(hash, u64::from_le_bytes(*word));
    }
    upper_half(hash_with(hash, word_of(rest)))
}

/// Where the digits begin with which a text ends.
fn digits_start(text: &[u8]) -> usize
    ensures start { result ≡ digits_start text.now }
    ensures within { result ≤ length text.now }
{
    let mut start = text.len();
    'digit: while start > 0 && text[start - 1].is_ascii_digit() {
        start -= 1;
    }
    start
}

/// A text without the bracket or the underscore after an index at its end, as in `data[7]` and `data_reg_7_`.
fn without_close(text: &[u8]) -> &[u8]
    ensures { result.now ≡ without_close text.now }
{
    match text {
        [front @ .., b']' | b'_'] => front,
        _ => text,
    }
}

/// The hash of a text, of 32 bits. Names that differ in the number at their end alone have hashes that follow one
/// another as those numbers do: their buckets are then beside one another, where memory is fast. So it is with the
/// indices of a name map, the bits of a bus and most nets of a netlist.
#[tactic(auto, unfolding(crate::specs::Hashes::hash_of))]
pub(crate) fn hash_of(text: &[u8]) -> u32
    ensures { result ≡ hash_of text.now }
{
    let name = without_close(text);
    let (head, digits) = name.split_at(digits_start(name));
    mixed_hash(head).wrapping_add(number_hash(digits))
}
