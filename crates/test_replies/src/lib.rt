//! Tests of replies. What they say is what named 9.18, nsd 4.6 and knotd 3.2 replied to the same requests about the same zone.
#![tactic(auto)]

#[cfg(test)]
mod recorded;
#[cfg(test)]
mod replies;
