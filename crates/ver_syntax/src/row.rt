//! The tokens of a module, with what each stands in.

use ver_text::Kind;

/// What a token of a module stands in.
#[derive(Clone, Copy, Debug, PartialEq, Eq, Drop)]
pub enum Place {
    /// It is the first token of the module, of one of its items or of its end: a keyword, or the identifier of the
    /// module or gate of instances.
    Start,
    /// The head of the module, outside brackets: an identifier here is the module's.
    Head,
    /// The list of the module's ports: an identifier here is a port's.
    Ports,
    /// A declaration of ports or nets, after its first token: an identifier here is declared.
    Declaration,
    /// A continuous assignment: an identifier here is a net's.
    Assignment,
    /// Instances of a module or gate, outside brackets: an identifier here is an instance's.
    Instances,
    /// The connections of an instance: an identifier here is a pin's.
    Pins,
    /// The connection of a pin, in its brackets: an identifier here is a net's. The `)` that ends it stands in it too.
    Connection,
}

/// A token of a module, from one place of its text to another, with what it stands in. Places have 32 bits, so that a
/// token takes twelve bytes.
#[derive(Clone, Copy, Debug, PartialEq, Eq, Drop)]
pub struct Row {
    pub place: Place,
    pub kind: Kind,
    pub from: u32,
    pub to: u32,
}
