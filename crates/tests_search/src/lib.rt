//! Tests of the search for best placements and for frontiers, on nets at random, against all their placements.
#![tactic(auto)]

#[cfg(test)]
mod best_compare;
#[cfg(test)]
mod best_lent;
#[cfg(test)]
mod best_lists;
#[cfg(test)]
mod draft;
#[cfg(test)]
mod enumerate;
#[cfg(test)]
mod front_compare;
#[cfg(test)]
mod front_kinds;
#[cfg(test)]
mod front_plain;
#[cfg(test)]
mod generate;
#[cfg(test)]
mod problems;
