// A set of up to 16 histories of block energies: histograms of counters, queues of energies.
#![tactic(auto)]

pub mod set;
pub mod stores;
