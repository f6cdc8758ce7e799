//! Tests of zones that are asked. What they say is what named 9.18, nsd 4.6 and knotd 3.2 answered for the same zone. And tests of NSEC and NSEC3
//! records: what they prove is what named sent them for.
#![tactic(auto)]

#[cfg(test)]
mod denials;
#[cfg(test)]
mod hashed_denials;
#[cfg(test)]
mod loads;
#[cfg(test)]
mod outcomes;
#[cfg(test)]
mod rows;
#[cfg(test)]
mod sections;
