//! Tests of public calls that no whole run over files in memory shows: numbers, names, tokens, tables, modules, and
//! files that are read and written.
#![tactic(auto)]

#[cfg(test)]
mod texts_comments;
#[cfg(test)]
mod texts_cons;
#[cfg(test)]
mod texts_designs;
#[cfg(test)]
mod texts_files;
#[cfg(test)]
mod texts_library;
#[cfg(test)]
mod texts_modules;
#[cfg(test)]
mod texts_names;
#[cfg(test)]
mod texts_nets;
#[cfg(test)]
mod texts_num;
#[cfg(test)]
mod texts_scan;
#[cfg(test)]
mod texts_tokens;
#[cfg(test)]
mod texts_written;
