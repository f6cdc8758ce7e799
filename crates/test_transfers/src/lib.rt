//! Tests of transfers. What they say is what the RFCs say of them, what named 9.18, nsd 4.6 and knotd 3.2 sent, and what dnspython makes
//! of it.
#![tactic(auto)]

#[cfg(test)]
mod incoming;
#[cfg(test)]
mod recorded;
