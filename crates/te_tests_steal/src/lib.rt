//! Tests of relays and of searches whose looks are stolen, as their callers use them.
#![tactic(auto)]

#[cfg(test)]
mod events;
#[cfg(test)]
mod relays;
#[cfg(test)]
mod searches;
