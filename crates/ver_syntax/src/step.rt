//! The machine that reads a module, one token at a time.

ghost use Rattle.std.specs.Prelude.{◌≡◌, IfOk};
ghost use Rattle.ver_syntax.specs.Moves.{head_move, item_move, past_range, bound_move, range_move, first_move, instance_move, role_move, end_move, select_move, brace_move, digits_move, expr_move, plain_move, move as move_of, gives, is_done_at, fault_kind};

use crate::braces::Braces;
use crate::fault::VerKind;
use crate::state::{At, Bound, Brace, Expr, Head, Instance, Item, Owner, Range, Role};
use std::alloc::AllocError;
use ver_text::Kind;

fn head_move(at: Head, kind: Kind) -> Option<At>
    ensures { result ≡ head_move at kind }
{
    let next = match (at, kind) {
        (Head::Start, Kind::Module) => Head::Module,
        (Head::Module, Kind::Identifier) => Head::Name,
        (Head::Name, Kind::Open) => Head::Ports,
        (Head::Name | Head::End, Kind::Semicolon) => return Some(At::Item(Item::Start)),
        (Head::Ports | Head::Comma, Kind::Direction) => Head::Direction,
        (Head::Ports | Head::Port, Kind::Close) => Head::End,
        (Head::Direction, Kind::Wire) => Head::Wire,
        (Head::Direction | Head::Wire, Kind::OpenSquare) => return Some(At::Range(
            Owner::Port,
            Range::Open,
        )),
        (Head::Port, Kind::Comma) => Head::Comma,
        (
            Head::Ports | Head::Comma | Head::Direction | Head::Wire | Head::Range,
            Kind::Identifier,
        ) => Head::Port,
        _ => return None,
    };
    Some(At::Head(next))
}

fn item_move(at: Item, kind: Kind) -> Option<At>
    ensures { result ≡ item_move at kind }
{
    let next = match (at, kind) {
        (Item::Start, Kind::Direction) => Item::Direction,
        (Item::Start, Kind::Wire | Kind::NetType) | (Item::Direction, Kind::Wire) => Item::Net,
        (Item::Start, Kind::Assign) => return Some(At::Expr(Role::Left, Expr::Start)),
        (Item::Start, Kind::Identifier) => return Some(At::Instance(Instance::Cell)),
        (Item::Start, Kind::EndModule) => Item::Over,
        (Item::Direction | Item::Net, Kind::OpenSquare) => return Some(At::Range(
            Owner::Item,
            Range::Open,
        )),
        (Item::Direction | Item::Net | Item::Next, Kind::Identifier) => Item::Name,
        (Item::Name, Kind::Comma) => Item::Next,
        (Item::Name, Kind::Semicolon) => Item::Start,
        _ => return None,
    };
    Some(At::Item(next))
}

fn past_range(owner: Owner) -> At
    ensures { Some result ≡ past_range owner }
{
    match owner {
        Owner::Port => At::Head(Head::Range),
        Owner::Item => At::Item(Item::Next),
    }
}

/// Whether a vector of at most 2^20 bits has these bounds.
fn bound_move(owner: Owner, first: Bound, kind: Kind) -> Option<At>
    ensures { result ≡ bound_move owner first kind }
{
    match (first, kind) {
        (Bound::Zero, Kind::Zero | Kind::Small)
        | (Bound::Small, Kind::Zero | Kind::Small | Kind::Limit)
        | (Bound::Limit, Kind::Small | Kind::Limit) => Some(At::Range(owner, Range::Second)),
        _ => None,
    }
}

fn range_move(owner: Owner, at: Range, kind: Kind) -> Option<At>
    ensures { result ≡ range_move owner at kind }
{
    let next = match (at, kind) {
        (Range::Open, Kind::Zero) => Range::First(Bound::Zero),
        (Range::Open, Kind::Small) => Range::First(Bound::Small),
        (Range::Open, Kind::Limit) => Range::First(Bound::Limit),
        (Range::First(bound), Kind::Colon) => Range::Colon(bound),
        (Range::Colon(bound), _) => return bound_move(owner, bound, kind),
        (Range::Second, Kind::CloseSquare) => return Some(past_range(owner)),
        _ => return None,
    };
    Some(At::Range(owner, next))
}

/// Where an expression goes on after its first token.
fn first_move(role: Role, kind: Kind) -> Option<At>
    ensures { result ≡ first_move role kind }
{
    let next = match kind {
        Kind::Identifier => Expr::Name,
        Kind::Zero | Kind::Small | Kind::Limit | Kind::Large | Kind::Based => Expr::End,
        Kind::OpenBrace => Expr::Brace,
        _ => return None,
    };
    Some(At::Expr(role, next))
}

fn instance_move(at: Instance, kind: Kind) -> Option<At>
    ensures { result ≡ instance_move at kind }
{
    let next = match (at, kind) {
        (Instance::Cell | Instance::Comma, Kind::Identifier) => Instance::Name,
        (Instance::Name, Kind::Open) => Instance::Pins,
        (Instance::Pins | Instance::PinComma, Kind::Dot) => Instance::Dot,
        (Instance::Pins | Instance::PinEnd, Kind::Close) => Instance::End,
        (Instance::Dot, Kind::Identifier) => Instance::Pin,
        (Instance::Pin, Kind::Open) => Instance::Connection,
        (Instance::Connection, Kind::Close) => Instance::PinEnd,
        (Instance::Connection, _) => return first_move(Role::Pin, kind),
        (Instance::PinEnd, Kind::Comma) => Instance::PinComma,
        (Instance::End, Kind::Comma) => Instance::Comma,
        (Instance::End, Kind::Semicolon) => return Some(At::Item(Item::Start)),
        _ => return None,
    };
    Some(At::Instance(next))
}

/// Where the machine goes on after the outermost expression.
fn role_move(role: Role, kind: Kind) -> Option<At>
    ensures { result ≡ role_move role kind }
{
    match (role, kind) {
        (Role::Left, Kind::Equals) => Some(At::Expr(Role::Right, Expr::Start)),
        (Role::Right, Kind::Comma) => Some(At::Expr(Role::Left, Expr::Start)),
        (Role::Right, Kind::Semicolon) => Some(At::Item(Item::Start)),
        (Role::Pin, Kind::Close) => Some(At::Instance(Instance::PinEnd)),
        _ => None,
    }
}

/// Where the machine goes on after an expression.
fn end_move(role: Role, kind: Kind, braces: &mut Braces) -> Result<Option<At>, AllocError>
    ensures { IfOk result (λ found. gives found braces.new ≡ end_move role kind braces.old) }
{
    match (braces.pop(), kind) {
        (None, _) => Ok(role_move(role, kind)),
        (Some(Brace::List), Kind::Comma) => {
            braces.push(Brace::List)?;
            Ok(Some(At::Expr(role, Expr::Start)))
        }
        (Some(Brace::List), Kind::CloseBrace) => Ok(Some(At::Expr(role, Expr::End))),
        (Some(Brace::Repeat), Kind::CloseBrace) => Ok(Some(At::Expr(role, Expr::Repeated))),
        _ => Ok(None),
    }
}

/// Where the machine goes on in a bit or a part of a vector.
fn select_move(role: Role, at: Expr, kind: Kind) -> Option<At>
    ensures { result ≡ select_move role at kind }
{
    let next = match (at, kind) {
        (Expr::Select, Kind::Zero | Kind::Small | Kind::Limit) => Expr::Bit,
        (Expr::Bit, Kind::Colon) => Expr::Colon,
        (Expr::Colon, Kind::Zero | Kind::Small | Kind::Limit) => Expr::Last,
        (Expr::Bit | Expr::Last, Kind::CloseSquare) => Expr::End,
        (Expr::Repeated, Kind::CloseBrace) => Expr::End,
        _ => return None,
    };
    Some(At::Expr(role, next))
}

/// Where the machine goes on after a `{`.
fn brace_move(role: Role, kind: Kind, braces: &mut Braces) -> Result<Option<At>, AllocError>
    ensures { IfOk result (λ found. gives found braces.new ≡ brace_move role kind braces.old) }
{
    match kind {
        Kind::Zero | Kind::Small | Kind::Limit | Kind::Large => Ok(Some(At::Expr(
            role,
            Expr::Digits,
        ))),
        _ => {
            braces.push(Brace::List)?;
            Ok(first_move(role, kind))
        }
    }
}

/// Where the machine goes on after digits that follow a `{`.
fn digits_move(role: Role, kind: Kind, braces: &mut Braces) -> Result<Option<At>, AllocError>
    ensures { IfOk result (λ found. gives found braces.new ≡ digits_move role kind braces.old) }
{
    match kind {
        Kind::Comma => {
            braces.push(Brace::List)?;
            Ok(Some(At::Expr(role, Expr::Start)))
        }
        Kind::CloseBrace => Ok(Some(At::Expr(role, Expr::End))),
        Kind::OpenBrace => {
            braces.push(Brace::Repeat)?;
            Ok(Some(At::Expr(role, Expr::Start)))
        }
        _ => Ok(None),
    }
}

fn expr_move(
    role: Role,
    at: Expr,
    kind: Kind,
    braces: &mut Braces,
) -> Result<Option<At>, AllocError>
    ensures { IfOk result (λ found. gives found braces.new ≡ expr_move role at kind braces.old) }
{
    match at {
        Expr::Start => Ok(first_move(role, kind)),
        Expr::Name => match kind {
            Kind::OpenSquare => Ok(Some(At::Expr(role, Expr::Select))),
            _ => {
                let next = end_move(role, kind, braces)?;
                Ok(next)
            }
        },
        Expr::End => {
            let next = end_move(role, kind, braces)?;
            Ok(next)
        }
        Expr::Brace => {
            let next = brace_move(role, kind, braces)?;
            Ok(next)
        }
        Expr::Digits => {
            let next = digits_move(role, kind, braces)?;
            Ok(next)
        }
        _ => Ok(select_move(role, at, kind)),
    }
}

/// Where the machine stands after a token, and which braces are open there. `None`: the grammar does not allow the
/// token.
#[inline(always)]
pub(crate) fn step(at: At, kind: Kind, braces: &mut Braces) -> Result<Option<At>, AllocError>
    ensures { IfOk result (λ found. gives found braces.new ≡ move_of at kind braces.old) }
{
    if let At::Expr(role, at) = at {
        let next = expr_move(role, at, kind, braces)?;
        return Ok(next);
    }
    braces.clear();
    Ok(plain_move(at, kind))
}

/// Where the machine stands after a token outside expressions.
#[inline(always)]
fn plain_move(at: At, kind: Kind) -> Option<At>
    ensures { result ≡ plain_move at kind }
{
    match at {
        At::Head(at) => head_move(at, kind),
        At::Item(at) => item_move(at, kind),
        At::Range(owner, at) => range_move(owner, at, kind),
        At::Instance(at) => instance_move(at, kind),
        At::Expr(..) => None,
    }
}

/// Whether the text may end here.
pub(crate) fn is_done(at: At) -> bool
    ensures { result ≡ is_done_at at }
{
    match at {
        At::Item(Item::Over) => true,
        _ => false,
    }
}

/// What is wrong with a token that the grammar does not allow.
pub(crate) fn fault_kind(at: At, kind: Kind) -> VerKind
    ensures { result ≡ fault_kind at kind }
{
    match (kind, at) {
        (Kind::Module, _) => VerKind::SecondModule,
        (Kind::Parameter, _) | (Kind::Hash, At::Instance(Instance::Cell)) => VerKind::Parameter,
        (_, At::Instance(Instance::Pins)) => VerKind::Positional,
        _ => VerKind::Grammar,
    }
}
