//! Texts of parasitics of which sections of nets are replaced by written ones are read again.
//!
//! A theory alone: `vg_patch` and `spef_write` have the code.
#![tactic(auto)]

mod laws;

pub use laws::{
    ends_keep_comments, files_are_spliced, lines_are_read_elsewhere, nets_are_read,
    notes_with_cells_are_quiet, own_names_are_free, patches_keep_comments, read_notes_are_quiet,
    replacements_are_read, sections_may_change, texts_have_changes, writable_nets_are_written,
    written_sections_are_quiet, written_texts_are_read,
};
