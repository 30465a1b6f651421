//! What the first word of a line opens.

ghost use Rattle.std.specs.Prelude.{◌≡◌};
ghost use Rattle.std.specs.Str.{bytes_eq};
ghost use Rattle.spef_file.specs.Keywords.{keyword_of, is_net, is_passed, is_foreign};

/// What the first word of a line opens, outside the header and the nets.
#[derive(Clone, Copy)]
pub(crate) enum Keyword {
    /// The name map.
    Map,
    /// A part that is passed over.
    Passed,
    /// A net.
    Net,
    /// A part that is not supported.
    Foreign,
    /// Nothing.
    Nothing,
}

/// The part in which a line stands that opens nothing.
#[derive(Clone, Copy, Drop)]
pub(crate) enum Region {
    /// No part.
    Outside,
    /// The name map.
    InMap,
    /// A part that is passed over.
    InPassed,
}

/// Whether two texts are the same.
pub(crate) fn same(left: &[u8], right: &[u8]) -> bool
    ensures { result ≡ bytes_eq left.now right.now }
{
    left == right
}

fn is_passed(word: &[u8]) -> bool
    ensures { result ≡ is_passed word.now }
{
    same(word, b"*POWER_NETS")
        || same(word, b"*GROUND_NETS")
        || same(word, b"*PORTS")
        || same(word, b"*PHYSICAL_PORTS")
}

/// Whether a word is the head of a net.
pub(crate) fn is_net(word: &[u8]) -> bool
    ensures { result ≡ is_net word.now }
{
    same(word, b"*D_NET") || same(word, b"*R_NET")
}

fn is_foreign(word: &[u8]) -> bool
    ensures { result ≡ is_foreign word.now }
{
    same(word, b"*DEFINE")
        || same(word, b"*PDEFINE")
        || same(word, b"*D_PNET")
        || same(word, b"*R_PNET")
}

/// What a word opens that is the first of its line.
#[tactic(auto, unfolding(crate::specs::Keywords::keyword_of))]
pub(crate) fn keyword_of(word: &[u8]) -> Keyword
    ensures { result ≡ keyword_of word.now }
{
    if same(word, b"*NAME_MAP") {
        Keyword::Map
    } else if is_passed(word) {
        Keyword::Passed
    } else if is_net(word) {
        Keyword::Net
    } else if is_foreign(word) {
        Keyword::Foreign
    } else {
        Keyword::Nothing
    }
}
