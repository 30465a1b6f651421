//! Laws of connections. Their functions do nothing: each one's contract is the law, which a proof may cite.

ghost use Rattle.ver_net.specs.Laws.{PinsAreLinked, PinsRise, TiedNetsAreShared};
ghost use Rattle.ver_net.specs.ReadAgain.{NetsAreNamed, NetsAreTokens};

/// The pins on a net are exactly those whose link is this one net.
pub fn pins_are_linked()
    ensures { PinsAreLinked }
{}

/// The pins on a net stand in the order of the text, each once.
pub fn pins_rise()
    ensures { PinsRise }
{}

/// A net is tied exactly where it is a supply, or stands in an assignment, or in a link to several nets.
pub fn tied_nets_are_shared()
    ensures { TiedNetsAreShared }
{}

/// The text of a net is read again, whatever stands before it and after it: its tokens are an identifier of its name,
/// and for a bit a `[`, digits that write its number, and a `]`.
pub fn nets_are_read_again()
    ensures tokens { NetsAreTokens }
    ensures names { NetsAreNamed }
{}
