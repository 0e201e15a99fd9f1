//! The local server of a host: which tiles of the host are idle, where threads begin, and what it passes on. This
//! simulator's own, after the servers of Graphite (HPCA 2010).
#![tactic(auto)]

mod local;

pub use local::Local;
