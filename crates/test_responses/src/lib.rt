//! Tests of what responses mean. What they say is what the RFCs say of them, and what named 9.18, nsd 4.6 and knotd 3.2 sent for a zone.
#![tactic(auto)]

#[cfg(test)]
mod meanings;
#[cfg(test)]
mod recorded;
