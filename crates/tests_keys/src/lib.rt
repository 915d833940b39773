//! Tests of keys, by example: of C requests, digests that hashlib computes of what is hashed, and printed texts; of include records and of what
//! they are kept under: their bytes, how often files are asked for, the files that a text names, days as numbers, and entry keys as hashlib
//! computes them; of rustc, keys and how it is asked for them, texts of arguments where paths lie elsewhere, what it writes of metadata, and faults as they are printed.
#![tactic(auto)]

#[cfg(test)]
mod answer_tool;
#[cfg(test)]
mod call_list;
#[cfg(test)]
mod days;
mod door;
#[cfg(test)]
mod door_calls;
#[cfg(test)]
mod entry_key;
#[cfg(test)]
mod fault;
#[cfg(test)]
mod keys;
#[cfg(test)]
mod layout;
#[cfg(test)]
mod look_ups;
#[cfg(test)]
mod notification;
#[cfg(test)]
mod print_tool;
#[cfg(test)]
mod reader_time_macros;
mod rust_door;
#[cfg(test)]
mod rust_keys;
#[cfg(test)]
mod rust_texts;
#[cfg(test)]
mod scene;
#[cfg(test)]
mod walk;
