//! Tests across crates: the desk's answers, and two threads over one history, of which one commits and the other plans.
#![tactic(auto)]

#[cfg(test)]
mod desks;
#[cfg(test)]
mod threads;
#[cfg(test)]
mod worked;
