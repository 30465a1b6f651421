//! Comments, lines and words of a text, names, and the names of SPEF.
//!
//! The parts of a text are spans. Only a name, and the one copy of a text without its comments, take memory.
#![tactic(auto)]

mod chars;
mod clear;
mod comments;
mod fault;
mod laws;
mod liberty_laws;
mod liberty_pieces;
mod lines;
mod name;
mod nodes;
mod print;
mod reference;
mod search;
mod spef;
mod spef_pieces;
mod words;

pub use chars::Chars;
pub use clear::{blank, clear_comments};
pub use comments::{Comments, next_comment, skip_comments};
pub use fault::{LineFault, NameFault};
pub use laws::{comments_keep_lines, parts_keep_comments, reads_names_again, texts_are_pieces};
pub use liberty_laws::liberty_texts_are_pieces;
pub use lines::{Span, line_of, next_line, next_word, text_at, text_from};
pub use name::{Name, NetNames, NodeName};
pub use nodes::{inner_name, node_name, port_name};
pub use print::print_spef_name;
pub use reference::{are_digits, index_of, is_reference};
pub use spef::{spef_name, spell_name, split_node};
pub use words::{Words, words_of};
