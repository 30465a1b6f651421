//! The machine that reads a library, one token at a time.

ghost use Rattle.std.specs.Prelude.{◌≡◌};
ghost use Rattle.lib_text.specs.Moves.{depth_of, cell_of, state, in_body, after_name, after_open, open_group, after_close, next, is_done};

use crate::kind::Kind;
use crate::state::{At, Head, State};

/// The greatest number of groups that are open at once, the library itself counted.
const MOST_GROUPS: usize = 64;

fn place(at: At, depth: usize, in_cell: bool) -> Option<State>
    ensures { result ≡ state at depth in_cell }
{
    Some(State { at, depth, in_cell })
}

impl Head {
    /// How many groups are open around a statement with this name.
    fn depth(self, depth: usize) -> usize
        ensures { result ≡ depth_of self depth }
    {
        match self {
            Head::Library => 0,
            Head::Cell => 1,
            Head::Pin => 2,
            Head::Other => depth,
        }
    }

    /// Whether the second of them is a cell.
    fn in_cell(self, in_cell: bool) -> bool
        ensures { result ≡ cell_of self in_cell }
    {
        match self {
            Head::Pin => true,
            _ => in_cell,
        }
    }
}

fn in_body(kind: Kind, depth: usize, in_cell: bool) -> Option<State>
    ensures { result ≡ in_body kind depth in_cell }
{
    if depth == 0 {
        return None;
    }
    match kind {
        Kind::Semicolon => place(At::Body, depth, in_cell),
        Kind::End => place(At::Body, depth - 1, in_cell),
        Kind::Cell if depth == 1 => place(At::Named(Head::Cell), depth, in_cell),
        Kind::Pin if depth == 2 && in_cell => place(At::Named(Head::Pin), depth, in_cell),
        Kind::Library | Kind::Cell | Kind::Pin | Kind::Word => {
            place(At::Named(Head::Other), depth, in_cell)
        }
        _ => None,
    }
}

fn after_name(head: Head, kind: Kind, depth: usize, in_cell: bool) -> Option<State>
    ensures { result ≡ after_name head kind depth in_cell }
{
    let depth = head.depth(depth);
    let in_cell = head.in_cell(in_cell);
    match kind {
        Kind::Colon => match head {
            Head::Library => None,
            _ => place(At::Value, depth, in_cell),
        },
        Kind::Open => place(At::Opened(head), depth, in_cell),
        _ => None,
    }
}

fn after_open(head: Head, kind: Kind, depth: usize, in_cell: bool) -> Option<State>
    ensures { result ≡ after_open head kind depth in_cell }
{
    let depth = head.depth(depth);
    let in_cell = head.in_cell(in_cell);
    match kind {
        Kind::Single => place(At::Listed(head), depth, in_cell),
        Kind::Several => match head {
            Head::Cell => place(At::Passed, depth, in_cell),
            _ => place(At::Listed(head), depth, in_cell),
        },
        Kind::Other => match head {
            Head::Cell | Head::Pin => place(At::Passed, depth, in_cell),
            _ => place(At::Listed(head), depth, in_cell),
        },
        _ => None,
    }
}

fn open_group(depth: usize, in_cell: bool) -> Option<State>
    ensures { result ≡ open_group depth in_cell }
{
    if depth == 1 {
        return place(At::Body, 2, false);
    }
    if depth < MOST_GROUPS {
        place(At::Body, depth + 1, in_cell)
    } else {
        None
    }
}

fn after_close(head: Head, kind: Kind, depth: usize, in_cell: bool) -> Option<State>
    ensures { result ≡ after_close head kind depth in_cell }
{
    match head {
        Head::Library => match kind {
            Kind::Begin => place(At::Body, 1, false),
            _ => None,
        },
        Head::Cell => match kind {
            Kind::Begin => place(At::Body, 2, true),
            _ => in_body(kind, 1, in_cell),
        },
        Head::Pin => match kind {
            Kind::Begin => place(At::Body, 3, true),
            _ => in_body(kind, 2, true),
        },
        Head::Other => match kind {
            Kind::Begin => open_group(depth, in_cell),
            _ => in_body(kind, depth, in_cell),
        },
    }
}

/// Where the machine stands after a token. `None`: the grammar does not allow the token.
pub(crate) fn step(kind: Kind, state: State) -> Option<State>
    ensures { result ≡ next state kind }
{
    let depth = state.depth;
    let in_cell = state.in_cell;
    match state.at {
        At::Start => match kind {
            Kind::Library => place(At::Named(Head::Library), depth, in_cell),
            _ => None,
        },
        At::Body => in_body(kind, depth, in_cell),
        At::Named(head) => after_name(head, kind, depth, in_cell),
        At::Value => match kind {
            Kind::Value => place(At::Body, depth, in_cell),
            _ => None,
        },
        At::Opened(head) => after_open(head, kind, depth, in_cell),
        At::Listed(head) => match kind {
            Kind::Close => place(At::Closed(head), head.depth(depth), head.in_cell(in_cell)),
            _ => None,
        },
        At::Passed => match kind {
            Kind::Close => place(At::Body, depth, in_cell),
            _ => None,
        },
        At::Closed(head) => after_close(head, kind, depth, in_cell),
    }
}

/// Whether the text may end here.
pub(crate) fn is_done(state: State) -> bool
    ensures { result ≡ is_done state }
{
    match state.at {
        At::Body | At::Closed(Head::Other) => state.depth == 0,
        _ => false,
    }
}
