//! Tests of the crates that read a feed: worked values of days and of walks, which no output of the program prints one by one.
//! Whole feeds are tables of the program's own tests.
#![tactic(auto)]

#[cfg(test)]
mod days;
#[cfg(test)]
mod walks;
