//! Tests of the machine and of the running parts of the hub through their public calls.
//!
//! This crate has nothing but tests, as `hub_tests` says.
#![tactic(auto)]

#[cfg(test)]
mod acting;
#[cfg(test)]
mod bells;
#[cfg(test)]
mod depots;
#[cfg(test)]
mod gates;
#[cfg(test)]
mod lives;
#[cfg(test)]
mod machine;

#[cfg(test)]
use std::fmt::Debug;
#[cfg(test)]
use std::process::Abort;

/// Asserts that what was found is what was expected.
// The tests have few assertions of their own, since each one is proved anew where it stands.
#[cfg(test)]
pub(crate) fn assert_same<T: PartialEq + Debug + Drop>(
    rt: &impl Abort,
    which: &str,
    found: T,
    expected: T,
) {
    assert_eq!(rt; found, expected, "{which}");
}
