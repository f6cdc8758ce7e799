//! Tests of TSIG: the test cases of RFC 2202 and RFC 4231, and the names of algorithms.
#![tactic(auto)]

#[cfg(test)]
mod macs;
