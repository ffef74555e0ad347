//! Tests of calls that no command of the program makes, or whose results none shows. They are in a
//! crate of their own because a crate with tests is proved twice, and this one is small.
#![tactic(auto)]

#[cfg(test)]
mod tests;
