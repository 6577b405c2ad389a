// A histogram's record: read into lent counters, and written from them.
#![tactic(auto)]

pub mod reader;
pub mod writer;
