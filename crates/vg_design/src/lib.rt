//! What the four files of a design say together: the problem and the slack of each of its nets.
//!
//! Resistances are whole milliohms (mΩ), capacitances whole attofarads (aF), times whole zeptoseconds (zs).
#![tactic(auto)]

mod allowed;
mod bare;
mod bare_parts;
mod connected;
mod design;
mod ends;
mod joined;
mod laws;
mod names;
mod net_problem;
mod numbers;
mod parts;
mod pins;
mod ready;
mod time;
mod total;

pub use bare::bare_net;
pub use bare_parts::BareNet;
pub use design::Design;
pub use joined::JoinedNet;
pub use laws::{one_bare_net, one_problem};
pub use names::TreeNames;
pub use net_problem::{NetProblem, PosedNet, is_unconstrained, posed_net, problem, problem_of};
pub use pins::PinnedNet;
pub use ready::{ReadyNet, ready_net};
pub use time::{Timed, time_net};
pub use total::total_capacitance;
