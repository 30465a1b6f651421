//! The links of pins.

ghost use Rattle.std.specs.Prelude.{◌≡◌, ◌++◌, IfOk, OnErr, OnOk};
ghost use Rattle.ver_module.specs.Flat.{IsKept, link_with, several};
ghost use Rattle.ver_module.specs.Links.{lent_link};

use crate::place::place;
use crate::runs::Runs;
use vg_num::Memory;

/// What a pin is linked to. A net is named by its number in the module.
#[derive(Drop)]
pub enum Link {
    /// Nothing: the pin is not connected.
    Open,
    /// One net: a scalar, or a bit by its number alone.
    One(u32),
    /// The nets in any other expression; none where it has numbers alone.
    Many(Runs),
}

/// What a pin is linked to, lent by its module.
#[derive(Clone, Copy, Debug, Drop)]
pub enum LinkRef<'a> {
    /// Nothing: the pin is not connected.
    Open,
    /// One net: a scalar, or a bit by its number alone.
    One(u32),
    /// The nets in any other expression; none where it has numbers alone.
    Many(&'a Runs),
}

/// What a pin is linked to, where the nets of links to several stand aside.
#[derive(Clone, Copy, Drop)]
pub(crate) enum LinkRow {
    Open,
    One(u32),
    /// Where its nets stand among those of all such links.
    Many(u32),
}

impl LinkRow {
    /// The link, where these are the nets of links to several.
    pub(crate) fn lend<'a>(self, many: &'a [Runs]) -> LinkRef<'a>
        requires { IsKept many.now self }
        ensures { lent_link result ≡ link_with many.now self }
    {
        match self {
            LinkRow::Open => LinkRef::Open,
            LinkRow::One(net) => LinkRef::One(net),
            LinkRow::Many(at) => LinkRef::Many(&many[at as usize]),
        }
    }
}

/// What is kept of a link. The nets of one to several are put last among those of all such links. Answers `Memory`
/// where there is no room; nothing changes then.
pub(crate) fn keep(many: &mut Vec<Runs>, link: Link) -> Result<LinkRow, Memory>
    ensures kept { IfOk result (IsKept many.new.items) }
    ensures link { IfOk result (λ row. link_with many.new.items row ≡ link) }
    ensures nets { OnOk result (many.new.items ≡ many.old.items ++ several link) }
    ensures unchanged { OnErr result (many.new.items ≡ many.old.items) }
{
    match link {
        Link::Open => Ok(LinkRow::Open),
        Link::One(net) => Ok(LinkRow::One(net)),
        Link::Many(nets) => {
            let at = place(many.len())?;
            let Ok(()) = many.push(nets) else {
                return Err(Memory);
            };
            Ok(LinkRow::Many(at))
        }
    }
}
