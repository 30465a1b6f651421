//! Files and outputs that can fail: what they hold, what was taken from them and written to them, and how often
//! they failed. The programs above are proved over these traits; `RealFiles` and `RealOut` are the thin edge to std.
#![tactic(auto)]

mod calls;
mod contents;
mod files;
mod mem_files;
mod mem_out;
mod output;
mod pieces;
mod places;
mod read;
mod real_files;
mod real_out;
mod sure_files;
mod sure_out;
mod waiting;
mod write;

pub use files::{Failed, Files};
pub use mem_files::MemFiles;
pub use mem_out::MemOut;
pub use output::{Out, put_all};
pub use read::{ReadAll, read_all};
pub use real_files::RealFiles;
pub use real_out::RealOut;
pub use sure_files::SureFiles;
pub use sure_out::SureOut;
pub use write::{append, draft_file, write_file};
