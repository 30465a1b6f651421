//! Mode `wire`: the wire delays of a net, from its parasitics alone.
#![tactic(auto)]

mod wire;

pub use wire::wire_for;
