//! What keys are built on: digests, folders stripped from texts and arguments, stores that may forget, and the small calls
//! beside them.
#![tactic(auto)]

mod digest;
mod duration;
pub mod error;
mod hash_state;
mod hexadecimal;
mod normalize;
mod os_str_ext;
mod path_bytes;
mod store;
mod strip;
mod unescape;
mod wrapper;

pub use digest::{Digest, HASH_BUFFER_SIZE, hash_buffer_size, texts_tell_digests};
pub use duration::fmt_duration_as_secs;
pub use hash_state::HashState;
pub use hexadecimal::{hex, hex_tells_its_bytes};
pub use normalize::{normalize_path, normalize_win_path};
pub use os_str_ext::OsStrExt;
pub use path_bytes::{decode_path, encode_path};
pub use store::{Store, kept_look_up_changes_nothing};
pub use strip::{
    KeptSlices, kept_slices, strip_basedirs, strip_basedirs_from_arg, stripping_adds_no_byte,
    stripping_leaves_one_text,
};
pub use unescape::{UnescapeError, ascii_unescape_default};
pub use wrapper::resolve_compiler_avoiding_wrapper;
