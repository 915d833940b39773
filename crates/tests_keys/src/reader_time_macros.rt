//! Macros of what a reader gives that fails.

use ckeys_base::error::Error;
use ckeys_time_macros::reader_sync_time_macros;
use sha2::Sha256;
use std::test::Fail;
use tests_kit::{ShortReader, holds};

#[test]
fn a_failed_read_is_told(rt: HostRuntime) -> Result<(), Fail> {
    let found = reader_sync_time_macros::<Sha256, _>(rt.alloc(), ShortReader { left: 3 });
    holds(matches!(found, Err(Error::Io)), "it is told")
}
