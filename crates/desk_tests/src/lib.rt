//! Tests of what no stored run can say: the texts of `clap`; a store that fails, a reader that is
//! interrupted, a writer that is cut off, clients that hang up, how many pairs of slabs are compared, and
//! entries of a table. They stand apart so that the crates under test are proved once and not again with
//! their tests.
#![tactic(auto)]

#[cfg(test)]
mod curve;
#[cfg(test)]
mod failing;
#[cfg(test)]
mod given;
#[cfg(test)]
mod program;
#[cfg(test)]
mod server;
#[cfg(test)]
mod sweep;
#[cfg(test)]
mod wire;
#[cfg(test)]
mod words;
