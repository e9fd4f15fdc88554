//! Tests of values, events, paths of one event, certificates, scripts, bytes and turns, as a user calls them.
#![tactic(auto)]

#[cfg(test)]
mod cert;
#[cfg(test)]
mod generator;
#[cfg(test)]
mod io;
#[cfg(test)]
mod lock;
#[cfg(test)]
mod path;
#[cfg(test)]
mod script;
#[cfg(test)]
mod terms;
