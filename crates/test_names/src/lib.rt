//! Tests of names, places, shared nodes and devices: each public call of `graphql_names` once, and devices that stop at each
//! byte. It has no code but these.
//!
//! Begin with `tests.rt`; each helper is above the first test that calls it.
#![tactic(auto)]

#[cfg(test)]
mod tests;
