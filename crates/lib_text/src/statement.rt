//! The statements of a text.

/// What a statement is. Source: Liberty User Guide, Synopsys.
#[derive(Clone, Copy, Debug, PartialEq, Eq, Drop)]
pub enum Form {
    /// `NAME : VALUE`
    Simple,
    /// `NAME (ARGUMENTS)`
    Complex,
    /// `NAME (ARGUMENTS) { STATEMENTS }`
    Group,
}

/// A statement of a text: where its name begins, and where its value or its arguments stand.
#[derive(Clone, Copy, Debug, PartialEq, Eq, Drop)]
pub struct Statement {
    /// Where the name of the innermost group around it begins; 0 where there is none.
    pub group: u32,
    pub form: Form,
    /// Where its name begins.
    pub name: u32,
    /// Where its value begins, or the text of its arguments.
    pub from: u32,
    /// Where these end.
    pub to: u32,
}
