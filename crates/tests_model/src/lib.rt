//! Tests of the public calls of the model that no whole run shows: delays at one node, limits beyond those of files,
//! illegal placements and their costs, and lists of pairs.
#![tactic(auto)]

#[cfg(test)]
mod candidates;
#[cfg(test)]
mod limits;
#[cfg(test)]
mod placements;
#[cfg(test)]
mod problems;
#[cfg(test)]
mod wire;
