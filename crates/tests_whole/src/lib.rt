//! Tests of whole runs that no case file can say: calls that fail, one after another, pieces of a few bytes, files that
//! never fail, certificates that are changed, made-up designs; and of the calls that read a design and words.
#![tactic(auto)]

#[cfg(test)]
mod certs;
#[cfg(test)]
mod design;
#[cfg(test)]
mod fail;
#[cfg(test)]
mod files;
#[cfg(test)]
mod made;
#[cfg(test)]
mod pieces;
#[cfg(test)]
mod sure;
#[cfg(test)]
mod words;
