//! The devices of file systems that are mounted, by their types.

use std::alloc::{AllocError, Global};
use std::collections::BTreeSet;
use std::fs;
use std::rt::Files;

/// Where the kernel lists what is mounted.
const LIST: &str = "/proc/self/mountinfo";

/// The types of file systems on which each change of a file gives it another time, and each change of the names in a folder gives that one
/// another; and whose folders list all names that a look finds there, in large or small letters.
const TYPES: [&[u8]; 9] = [
    b"btrfs", b"ext2", b"ext3", b"ext4", b"f2fs", b"overlay", b"tmpfs", b"xfs", b"zfs",
];

/// The number of a device, from its two parts.
fn device_of(major: u64, minor: u64) -> u64 {
    let low = (major & 0xfff) << 8 | (minor & 0xff);
    let high = (major & 0xffff_f000) << 32 | (minor & 0xffff_ff00) << 12;
    low | high
}

/// The device of a mount, which is given as two numbers with a colon between them.
fn device_in(text: &[u8]) -> Option<u64> {
    let (major, minor) = str::from_utf8(text).ok()?.split_once(':')?;
    Some(device_of(
        u64::from(major.parse::<u32>().ok()?),
        u64::from(minor.parse::<u32>().ok()?),
    ))
}

/// The device in a line of the list, where its file system is of one of these types.
fn trusted_in(line: &[u8]) -> Option<u64> {
    let mut count: usize = 0;
    let mut device: &[u8] = &[];
    let mut is_type = false;
    for word in line.split(|byte| *byte == b' ') {
        if is_type {
            return match TYPES.contains(&word) {
                true => device_in(device),
                false => None,
            };
        }
        if count == 2 {
            device = word;
        }
        is_type = count > 2 && matches!(word, b"-");
        count = count.saturating_add(1);
    }
    None
}

/// The devices in a list of mounts on which a file whose state is the same as before has the same contents as before.
pub fn devices_in(alloc: Global, list: &[u8]) -> Result<BTreeSet<u64>, AllocError> {
    let mut devices = BTreeSet::new(alloc);
    for line in list.split(|byte| *byte == b'\n') {
        if let Some(device) = trusted_in(line) {
            devices.insert(device)?;
        }
    }
    Ok(devices)
}

/// Those of this machine. None where there is no list.
fn devices<R: Files + AllocGlobal>(rt: &R) -> Result<BTreeSet<u64>, AllocError> {
    match fs::read(rt, LIST) {
        Ok(list) => devices_in(rt.alloc(), list.as_slice()),
        Err(_) => Ok(BTreeSet::new(rt.alloc())),
    }
}

/// The devices of this machine that are trusted.
#[derive(Drop)]
pub struct TrustedDevices {
    /// They, once one was asked for.
    devices: Option<BTreeSet<u64>>,
}

impl TrustedDevices {
    /// None was asked for yet.
    pub fn new() -> TrustedDevices {
        TrustedDevices { devices: None }
    }

    /// Whether that device is among them.
    pub fn have<R: Files + AllocGlobal>(
        &mut self,
        rt: &R,
        device: u64,
    ) -> Result<bool, AllocError> {
        if self.devices.is_none() {
            self.devices = Some(devices(rt)?);
        }
        Ok(match &self.devices {
            Some(devices) => devices.contains(&device),
            None => false,
        })
    }
}
