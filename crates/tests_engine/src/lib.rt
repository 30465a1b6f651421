//! Tests of the calls on which a search stands: shared solutions, pools of candidates, where branches meet, and what
//! repeaters make.
#![tactic(auto)]

#[cfg(test)]
mod arena;
#[cfg(test)]
mod branches;
#[cfg(test)]
mod cells;
#[cfg(test)]
mod pool_lists;
#[cfg(test)]
mod pool_rows;
#[cfg(test)]
mod pools;
