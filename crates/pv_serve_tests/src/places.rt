//! Each disk and each door is handed back in its own place.
ghost use Rattle.std.specs.Prelude.{◌<◌, All, IfOk};
ghost use Rattle.pv_memory.specs.Doors.{accepted_of};
ghost use Rattle.pv_service.specs.declared.caller_stand.TheConstants.{MAX_ACCEPTED};

use super::network::ACCOUNT;
use super::parts::{Parts, door_of, formatted, row_of, sent_at, serve_parts};
use super::screens::{NOT_KNOWN, bytes_of};
use pv_files::ThreadSpawner;
use pv_memory::{MemDisk, MemDoor};
use pv_serve::Served;
use std::alloc::Global;
use std::sync::Wait;
use std::test::Fail;
use std::thread::Threads;

/// Words that ask for two centres.
const TWO_CENTRES: &str =
    "serve d --centres 2 --ports 1 --editors 1 --calls 1 --port 9000 --editor-port 9100";

/// The disks of a network of two centres, without a record.
fn three_disks(alloc: Global) -> Result<Vec<MemDisk>, Fail> {
    let update = formatted(alloc, &[])?;
    let first = formatted(alloc, &[])?;
    let second = formatted(alloc, &[])?;
    Ok(vec![in alloc; update, first, second]?)
}

/// The doors of both centres' callers. One keys at the first.
fn two_callers(alloc: Global, keys: &[u8]) -> Result<Vec<MemDoor>, Fail>
    ensures { IfOk result (λ row. All (λ d. accepted_of d < MAX_ACCEPTED) row.items) }
{
    let first = door_of(alloc, &[keys], &[])?;
    let second = door_of(alloc, &[b""], &[])?;
    Ok(vec![in alloc; first, second]?)
}

/// How a server of two centres has ended.
type ServedTwo = Served<MemDisk, MemDoor, MemDoor>;

/// Serves an editor who writes these bytes, and a caller who keys these at the first centre.
fn serve_two<R: Wait + Threads + Sync>(
    rt: &R,
    alloc: Global,
    disks: Vec<MemDisk>,
    editor: &[u8],
    keys: &[u8],
) -> Result<ServedTwo, Fail> {
    let callers = two_callers(alloc, keys)?;
    let editors = row_of(alloc, door_of(alloc, &[editor], &[])?)?;
    let parts = Parts {
        disks,
        callers,
        editors,
    };
    serve_parts(rt, alloc, TWO_CENTRES, parts, &mut ThreadSpawner::new())
}

/// Disks of which each holds something else: the account, and at the first centre what a call of it has stored.
fn three_used<R: Wait + Threads + Sync>(rt: &R, alloc: Global) -> Result<Vec<MemDisk>, Fail> {
    let known = serve_two(rt, alloc, three_disks(alloc)?, ACCOUNT, b"")?;
    let used = serve_two(rt, alloc, known.disks, b"QUIT\n", b"1000000001ABCD*90#")?;
    Ok(used.disks)
}

/// What these disks read as.
fn texts_of(alloc: Global, disks: &[MemDisk]) -> Result<Vec<Vec<u8>>, Fail> {
    let mut texts = Vec::new(alloc);
    for disk in disks {
        texts.push(Vec::from_slice(alloc, disk.bytes())?)?;
    }
    Ok(texts)
}

/// Whether these are three texts, no two of them the same.
fn are_apart(texts: &[Vec<u8>]) -> bool {
    match texts {
        [one, two, three] => one != two && one != three && two != three,
        _ => false,
    }
}

#[test]
fn disks_are_handed_back_in_their_places(rt: HostRuntime) -> Result<(), Fail> {
    let used = three_used(&rt, rt.alloc())?;
    let texts = texts_of(rt.alloc(), &used)?;
    let served = serve_two(&rt, rt.alloc(), used, b"QUIT\n", b"")?;
    assert_eq!(rt; texts_of(rt.alloc(), &served.disks)?, texts);
    // If two of them were the same, it would not show that they have changed places.
    assert!(rt; are_apart(&texts));
    Ok(())
}

#[test]
fn doors_are_handed_back_in_their_places(rt: HostRuntime) -> Result<(), Fail> {
    let alloc = rt.alloc();
    let served = serve_two(
        &rt,
        alloc,
        three_disks(alloc)?,
        b"QUIT\n",
        b"1000000001ABCD",
    )?;
    let [first, second] = served.callers.as_slice() else {
        return Err("two doors".into());
    };
    assert_eq!(rt; sent_at(first), bytes_of(alloc, &NOT_KNOWN)?.as_slice());
    assert_eq!(rt;
        sent_at(second),
        bytes_of(alloc, &NOT_KNOWN[..1])?.as_slice()
    );
    Ok(())
}
