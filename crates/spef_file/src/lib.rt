//! The index of a SPEF file (IEEE Std 1481): its header, its name map, and where its nets stand.
#![tactic(auto)]

mod fault;
mod header;
mod header_chars;
mod header_line;
mod heading;
mod keyword;
mod laws;
mod lines;
mod lookup;
mod name_map;
mod net_end;
mod read;
mod reader;
mod section;
mod sections;
mod spef_index;
mod spef_text;
mod text;
mod units;

pub use fault::{SpefFault, SpefKind};
pub use header::Header;
pub use laws::{comments_say_nothing, says_one_thing};
pub use lookup::{mapped, net_at};
pub use name_map::NameMap;
pub use read::index;
pub use section::Section;
pub use sections::Sections;
pub use spef_index::SpefIndex;
pub use spef_text::SpefText;
pub use text::net_lines;
