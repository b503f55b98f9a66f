//! One caller and one editor, and servers that are not begun.

use super::parts::{
    ONE_EACH, Outcome, blank, door_of, formatted, outcome_of, parts_of, serve_parts, two_disks,
};
use super::screens::{NOT_KNOWN, bytes_of};
use pv_files::ThreadSpawner;
use pv_memory::{MemDisk, MemDoor};
use pv_node::NodeFault;
use pv_serve::{ServeStatus, Served};
use std::alloc::Global;
use std::sync::Wait;
use std::test::Fail;
use std::thread::Threads;

/// A caller keys what is not known at fresh nodes, and an editor quits.
fn one_call<R: Wait + Threads + Sync>(rt: &R, alloc: Global) -> Result<Outcome, Fail> {
    let caller = door_of(alloc, &[b"1000000001ABCD*90#"], &[])?;
    let editor = door_of(alloc, &[b"QUIT\n"], &[])?;
    let parts = parts_of(alloc, two_disks(alloc)?, caller, editor)?;
    let served = serve_parts(rt, alloc, ONE_EACH, parts, &mut ThreadSpawner::new())?;
    Ok(outcome_of(alloc, &served)?)
}

#[test]
fn one_caller_and_one_editor_are_served(rt: HostRuntime) -> Result<(), Fail> {
    let outcome = one_call(&rt, rt.alloc())?;
    let screens = bytes_of(rt.alloc(), &NOT_KNOWN)?;
    assert_eq!(rt; (outcome.number, outcome.back), (0, (2, 1, 1)));
    assert_eq!(rt; outcome.caller, screens);
    assert_eq!(rt; outcome.editor.as_slice(), b"BYE\n".as_slice());
    Ok(())
}

/// Serves doors at which nobody comes in.
fn serve_nobody<R: Wait + Threads + Sync>(
    rt: &R,
    alloc: Global,
    words: &str,
    disks: Vec<MemDisk>,
) -> Result<Served<MemDisk, MemDoor, MemDoor>, Fail> {
    let caller = door_of(alloc, &[], &[])?;
    let editor = door_of(alloc, &[], &[])?;
    let parts = parts_of(alloc, disks, caller, editor)?;
    serve_parts(rt, alloc, words, parts, &mut ThreadSpawner::new())
}

/// The disks of a network of one centre, of which the Update Centre's is not formatted.
fn first_blank(alloc: Global) -> Result<Vec<MemDisk>, Fail> {
    let update = blank(alloc, &[])?;
    let centre = formatted(alloc, &[])?;
    Ok(vec![in alloc; update, centre]?)
}

#[test]
fn disk_without_a_journal_is_named(rt: HostRuntime) -> Result<(), Fail> {
    let disks = first_blank(rt.alloc())?;
    let served = serve_nobody(&rt, rt.alloc(), ONE_EACH, disks)?;
    assert_eq!(rt; (served.status.number(), served.disks.len()), (9, 2));
    let is_named = matches!(
        served.status,
        ServeStatus::Unopened {
            node: 0,
            fault: NodeFault::NotFormatted(_)
        }
    );
    assert!(rt; is_named);
    Ok(())
}

#[test]
fn words_without_the_callers_port_are_refused(rt: HostRuntime) -> Result<(), Fail> {
    let words = "serve d --centres 1 --ports 1 --editors 1 --calls 1 --editor-port 9100";
    let served = serve_nobody(&rt, rt.alloc(), words, two_disks(rt.alloc())?)?;
    assert_eq!(rt; (served.status.number(), served.disks.len()), (2, 2));
    assert!(rt; matches!(served.status, ServeStatus::Usage));
    Ok(())
}
