//! What a mode answers: a text to print, the files to write, in order, and their kind; or the first fault of an input.
#![tactic(auto)]

mod answer;
mod input;
mod kind;
mod new_text;
mod output;
mod read;
mod texts;

pub use answer::{Answer, NewFile, NoAnswer, answer_text, refuse};
pub use input::Input;
pub use kind::AnswerKind;
pub use new_text::{NewText, TextPieces};
pub use output::Output;
pub use read::{design_in, design_of, index_of};
pub use texts::{DesignTexts, InputText};
