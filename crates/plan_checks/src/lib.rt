//! Tests of the crates that read words, targets and queries, search, read cursors and write replies: worked values, and texts that are
//! refused. Whole plans are tables of the program's own tests.
#![tactic(auto)]

#[cfg(test)]
mod cursors;
#[cfg(test)]
mod fronts;
#[cfg(test)]
mod queries;
#[cfg(test)]
mod replies;
#[cfg(test)]
mod searches;
#[cfg(test)]
mod targets;
#[cfg(test)]
mod words;
