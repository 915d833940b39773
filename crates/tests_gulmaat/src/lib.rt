//! Tests of what gulmaat builds on, by example: what sources ask for, where compilers look, what is watched, states of files, lines as they were
//! written, manifests, dependency files, names that are mapped, variables, what is bound to keys, what is passed through, and what isn't kept.
#![tactic(auto)]

#[cfg(test)]
mod additions;
#[cfg(test)]
mod dependencies;
#[cfg(test)]
mod directives;
#[cfg(test)]
mod disks;
#[cfg(test)]
mod lines;
#[cfg(test)]
mod lists;
#[cfg(test)]
mod manifests;
#[cfg(test)]
mod mapped;
#[cfg(test)]
mod passing;
#[cfg(test)]
mod rows;
#[cfg(test)]
mod searches;
#[cfg(test)]
mod states;
#[cfg(test)]
mod unkept;
#[cfg(test)]
mod variables;
#[cfg(test)]
mod watching;
