//! Tests of what requests and keys are built on, for what rows of data cannot show: paths, digests, stripping, stores and the small calls; and
//! of command lines: values as texts, words cut in two, what is asked of a request, and faults as they are printed.
#![tactic(auto)]

#[cfg(test)]
mod blake2b;
#[cfg(test)]
mod digest;
pub mod door;
#[cfg(test)]
mod faults;
#[cfg(test)]
mod path;
#[cfg(test)]
mod requests;
#[cfg(test)]
mod steps;
#[cfg(test)]
mod strip;
#[cfg(test)]
mod texts;
#[cfg(test)]
mod values;
#[cfg(test)]
mod wrapper;
