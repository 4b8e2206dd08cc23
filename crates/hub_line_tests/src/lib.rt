//! Tests of lines and channels through their public calls, on one thread and on several.
#![tactic(auto)]

#[cfg(test)]
mod channels;
#[cfg(test)]
mod lines;
#[cfg(test)]
mod threads;
