//! Certificates of the nets of a design, as text: written of what a search for a best placement found, and judged,
//! whoever wrote them.
#![tactic(auto)]

mod certify;
mod claim;
mod count;
mod counted;
mod judge;
mod laws;
mod lines;
mod made;
mod names;

pub use certify::{certified, summed_up};
pub use claim::certificate;
pub use counted::search;
pub use judge::judge_text;
pub use laws::{
    judgements_are_one, net_names_fit, valid_ones_are_best, written_certificates_are_valid,
};
pub use made::{Certified, Summed};
pub use names::net_names;
