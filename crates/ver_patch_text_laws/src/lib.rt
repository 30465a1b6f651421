//! The text of a changed netlist is read again: it has the words of the text with the changes, since no byte that is
//! put in joins with what stands there, and it is a module.
//!
//! Theory alone: `ver_patch` has the code.
#![tactic(auto)]

mod laws;
mod word_laws;

pub use laws::{modules_stay, words_are_patched};
pub use word_laws::net_texts_are_words;
