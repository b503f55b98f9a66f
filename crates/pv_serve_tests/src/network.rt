//! Networks that were served before.

use super::parts::{ONE_EACH, door_of, parts_of, serve_parts, two_disks};
use pv_files::ThreadSpawner;
use pv_memory::MemDisk;
use pv_serve::ServeStatus;
use std::alloc::Global;
use std::sync::Wait;
use std::test::Fail;
use std::thread::Threads;

/// What an editor writes to make the account 1000000001 with the password ABCD and the home 0.
pub const ACCOUNT: &[u8] = b"LOGON 0000000000 0000\nACCOUNT 1 1000000001 ABCD 0 -\nQUIT\n";

/// The disks of a network of one centre that knows the account.
pub fn with_account<R: Wait + Threads + Sync>(rt: &R, alloc: Global) -> Result<Vec<MemDisk>, Fail> {
    let caller = door_of(alloc, &[b""], &[])?;
    let editor = door_of(alloc, &[ACCOUNT], &[])?;
    let parts = parts_of(alloc, two_disks(alloc)?, caller, editor)?;
    let served = serve_parts(rt, alloc, ONE_EACH, parts, &mut ThreadSpawner::new())?;
    match served.status {
        ServeStatus::Done => Ok(served.disks),
        _ => Err("not served".into()),
    }
}
