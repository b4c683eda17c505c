//! The command `serve`: a replica as `node` runs it, whose events a journal keeps, and which goes on from there. Nothing is
//! sent before it is stored.

mod files;
mod identity;
mod recovered;
mod run;
mod turns;

pub use run::run_serve;
