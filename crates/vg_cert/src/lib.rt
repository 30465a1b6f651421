//! Certificates of the best placement of a net, and their text.
//!
//! ```text
//! vgcert 1
//! net NAME
//! slack S            (a whole number of zeptoseconds, or none)
//! cells N
//! at NODE CELL       (N lines, in tree order)
//! node NODE A B      (for each live node, in tree order)
//! Q C                (A lines of the even list, then B of the odd)
//! end
//! ```
//!
//! Each line ends with a newline, and one blank stands between words, a space or a tab. A NODE is `owner:leaf`, or
//! `owner` where there is no leaf, and each colon and each backslash inside of these has a backslash before it, so that
//! no two nodes are written alike.
#![tactic(auto)]

mod certificate;
mod fault;
mod growing;
mod head;
mod laws;
mod line;
mod lines;
mod names;
mod place;
mod read;
mod source;
mod words;
mod write;

pub use certificate::{Certificate, NodeLists};
pub use fault::{CertFault, CertKind};
pub use laws::reads_certificates_again;
pub use read::read_certificate;
pub use write::take_text;
