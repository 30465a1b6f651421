//! Where a machine stands that reads a module.

/// What was read last of a module's head.
#[derive(Clone, Copy)]
pub(crate) enum Head {
    /// Nothing.
    Start,
    /// `module`
    Module,
    /// The module's identifier.
    Name,
    /// The `(` of the list of ports.
    Ports,
    /// A port's direction.
    Direction,
    /// The `wire` of a port.
    Wire,
    /// The range of a port.
    Range,
    /// A port's identifier.
    Port,
    /// The `,` after a port.
    Comma,
    /// The `)` of the list of ports.
    End,
}

/// What was read last among the items of a module.
#[derive(Clone, Copy)]
pub(crate) enum Item {
    /// The `;` of the head or of an item.
    Start,
    /// The direction of a declaration.
    Direction,
    /// The type of nets of a declaration.
    Net,
    /// The range of a declaration, or a `,`: an identifier comes.
    Next,
    /// An identifier of a declaration.
    Name,
    /// `endmodule`
    Over,
}

/// What a range stands in.
#[derive(Clone, Copy)]
pub(crate) enum Owner {
    /// The list of ports.
    Port,
    /// A declaration.
    Item,
}

/// The first bound of a range.
#[derive(Clone, Copy)]
pub(crate) enum Bound {
    Zero,
    Small,
    Limit,
}

/// What was read last of a range.
#[derive(Clone, Copy)]
pub(crate) enum Range {
    /// `[`
    Open,
    /// The first bound.
    First(Bound),
    /// The `:` after it.
    Colon(Bound),
    /// The second bound.
    Second,
}

/// What was read last of an instance.
#[derive(Clone, Copy)]
pub(crate) enum Instance {
    /// The identifier of the module or gate.
    Cell,
    /// The `,` after an instance.
    Comma,
    /// The instance's identifier.
    Name,
    /// The `(` of its connections.
    Pins,
    /// The `,` after a connection.
    PinComma,
    /// The `.` of a connection.
    Dot,
    /// The connection's identifier.
    Pin,
    /// The `(` of the connection.
    Connection,
    /// The `)` of the connection.
    PinEnd,
    /// The `)` of its connections.
    End,
}

/// What was read last of an expression.
#[derive(Clone, Copy)]
pub(crate) enum Expr {
    /// Nothing: an expression comes.
    Start,
    /// An identifier.
    Name,
    /// The `[` after an identifier.
    Select,
    /// The bit, or the first bound of a part.
    Bit,
    /// The `:` after it.
    Colon,
    /// The second bound of a part.
    Last,
    /// The expression whole.
    End,
    /// A `{`.
    Brace,
    /// Digits after a `{`.
    Digits,
    /// The inner `}` of a replication.
    Repeated,
}

/// What the outermost expression is.
#[derive(Clone, Copy)]
pub(crate) enum Role {
    /// The left side of an assignment.
    Left,
    /// The right side of an assignment.
    Right,
    /// The connection of a pin.
    Pin,
}

/// A concatenation that is open.
#[derive(Clone, Copy)]
pub(crate) enum Brace {
    /// `{ EXPRESSION , .. }`
    List,
    /// The inner one of `{ DIGITS { EXPRESSION } }`
    Repeat,
}

/// Where the machine stands.
#[derive(Clone, Copy)]
pub(crate) enum At {
    Head(Head),
    Range(Owner, Range),
    Item(Item),
    Instance(Instance),
    Expr(Role, Expr),
}
