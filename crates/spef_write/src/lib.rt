//! The sections of nets, as they are written, and what of it is read again: words and lines, the names of nodes,
//! values, notes, the lines of capacitors, resistors and connections, and a net as a whole; and a text of which a
//! section is replaced.
#![tactic(auto)]

mod charge;
mod laws;
mod line;
mod printed;
mod section;
mod write;

pub use charge::{has_small_charge, sums};
pub use laws::{
    caps_again, conns_again, cuts_keep_comments, heads_name_nets, inner_lines_say, lines_again,
    lines_are_quiet, names_are_quiet, nodes_again, nodes_are_quiet, notes_again, numbers_again,
    ress_again, said_nets_are_faultless, sections_are_lines, sections_are_quiet, sections_splice,
    stars_again, words_again, written_nets_again,
};
pub use printed::{NodeText, Printed};
pub use section::Section;
pub use write::{write_net, write_section};
