//! What a server is handed: words, disks and doors, all in memory.
ghost use Rattle.std.specs.Prelude.{◌≡◌, ◌<◌, All, map, string_bytes, vec_len, IfOk, IsTrue};
ghost use Rattle.pv_memory.specs.Doors.{IsNewLine, accepted_of};
ghost use Rattle.pv_serve.specs.Options.{AskToServe};
ghost use Rattle.pv_serve.specs.Serving.{ArePartsOf};
ghost use Rattle.pv_serve.specs.declared.options.ServeOptions.{ServeOptions};
ghost use Rattle.pv_service.specs.declared.caller_stand.TheConstants.{MAX_ACCEPTED};

use pv_journal::format;
use pv_memory::{MemDisk, MemDoor, MemLine, MemSink, MemSource, SetClock};
use pv_outside::{Door, Spawner};
use pv_serve::{OptionFault, ServeOptions, Served, serve, serve_options};
use pv_service::Log;
use std::alloc::{AllocError, Global};
use std::sync::Wait;
use std::test::Fail;
use std::thread::Threads;

/// Words that ask for a server with one port of each kind.
pub const ONE_EACH: &str =
    "serve d --centres 1 --ports 1 --editors 1 --calls 1 --port 9000 --editor-port 9100";

/// Room for what a line is sent.
pub const ROOM: usize = 5_000_000;

/// What a server is handed beside the words.
#[derive(Drop)]
pub struct Parts<O: Door + Drop, E: Door + Drop> {
    /// The disks.
    pub disks: Vec<MemDisk>,
    /// The callers' doors.
    pub callers: Vec<O>,
    /// The editors' doors.
    pub editors: Vec<E>,
}

/// A text as words of a command line.
fn words_of(alloc: Global, text: &str) -> Result<Vec<String>, AllocError> {
    let mut words = Vec::new(alloc);
    for word in text.split(' ') {
        words.push(String::from_str(alloc, word)?)?;
    }
    Ok(words)
}

/// Whether these counts of disks and doors are those of a server with these options.
fn are_parts_of(options: &ServeOptions, disks: usize, callers: usize, editors: usize) -> bool
    ensures { IsTrue result → ArePartsOf options.now disks callers editors }
{
    let centres = usize::from(options.centres);
    disks == centres + 1
        && callers == centres * usize::from(options.ports)
        && editors == usize::from(options.editors)
}

/// Whether these counts of disks and doors are those that the words ask for, if they ask for a server.
fn are_asked(
    alloc: Global,
    words: &[String],
    disks: usize,
    callers: usize,
    editors: usize,
) -> Result<bool, Fail>
    ensures { IfOk result (λ are. IsTrue are → (options : ServeOptions)
        → AskToServe (map string_bytes words.now) options → ArePartsOf options disks callers editors) }
{
    match serve_options(alloc, words) {
        Ok(options) => Ok(are_parts_of(&options, disks, callers, editors)),
        Err(OptionFault::Usage) => Ok(true),
        Err(OptionFault::Memory) => Err("out of memory".into()),
    }
}

/// Serves these parts.
pub fn serve_parts<
    O: Door + Log + Drop + Send,
    E: Door + Log + Drop + Send,
    P: Spawner,
    R: Wait + Threads + Sync,
>(
    rt: &R,
    alloc: Global,
    words: &str,
    parts: Parts<O, E>,
    spawner: &mut P,
) -> Result<Served<MemDisk, O, E>, Fail>
where
    O::Line: Send,
    E::Line: Send,
    requires callers { All (λ door. O.accepted door < MAX_ACCEPTED) parts.callers.items }
    requires editors { All (λ door. E.accepted door < MAX_ACCEPTED) parts.editors.items }
{
    let words = words_of(alloc, words)?;
    let Parts {
        disks,
        callers,
        editors,
    } = parts;
    if !are_asked(alloc, &words, disks.len(), callers.len(), editors.len())? {
        return Err("the words ask for other parts".into());
    }
    let clock = SetClock::new(7);
    Ok(serve(rt, alloc, &words, disks, callers, editors, &clock, spawner))
}

/// An empty disk, of which these calls fail.
pub fn blank(alloc: Global, fails: &[u64]) -> Result<MemDisk, Fail> {
    Ok(MemDisk::new(alloc, 200_000, fails)?)
}

/// A disk without a record, of which these calls fail. The first seven are those of the formatting and the opening.
pub fn formatted(alloc: Global, fails: &[u64]) -> Result<MemDisk, Fail> {
    let mut disk = blank(alloc, fails)?;
    format(&mut disk)?;
    Ok(disk)
}

/// The disks of a network of one centre, without a record.
pub fn two_disks(alloc: Global) -> Result<Vec<MemDisk>, Fail> {
    let update = formatted(alloc, &[])?;
    let centre = formatted(alloc, &[])?;
    Ok(vec![in alloc; update, centre]?)
}

/// A line that gives these bytes.
fn line_of(alloc: Global, bytes: &[u8]) -> Result<MemLine, AllocError>
    ensures { IfOk result IsNewLine }
{
    let source = MemSource::new(alloc, bytes, &[])?;
    let sink = MemSink::new(alloc, ROOM, &[])?;
    Ok(MemLine::new(source, sink))
}

/// A door at which lines with these bytes come in, of which these accepts fail.
pub fn door_of(alloc: Global, lines: &[&[u8]], fails: &[u64]) -> Result<MemDoor, AllocError>
    ensures { IfOk result (λ door. accepted_of door < MAX_ACCEPTED) }
{
    let mut coming = Vec::new(alloc);
    for bytes in lines {
        coming.push(line_of(alloc, bytes)?)?;
    }
    MemDoor::new(alloc, coming, fails)
}

/// A row of one door.
pub fn row_of<O: Door + Drop>(alloc: Global, door: O) -> Result<Vec<O>, Fail>
    requires { O.accepted door < MAX_ACCEPTED }
    ensures { IfOk result (λ row. All (λ d. O.accepted d < MAX_ACCEPTED) row.items) }
{
    let mut row = Vec::new(alloc);
    match row.push(door) {
        Ok(()) => Ok(row),
        Err(_) => Err("out of memory".into()),
    }
}

/// These disks, with one door for callers and one for editors.
pub fn parts_of(
    alloc: Global,
    disks: Vec<MemDisk>,
    caller: MemDoor,
    editor: MemDoor,
) -> Result<Parts<MemDoor, MemDoor>, Fail>
    requires caller { accepted_of caller < MAX_ACCEPTED }
    requires editor { accepted_of editor < MAX_ACCEPTED }
    ensures callers { IfOk result (λ parts. All (λ d. accepted_of d < MAX_ACCEPTED) parts.callers.items) }
    ensures editors { IfOk result (λ parts. All (λ d. accepted_of d < MAX_ACCEPTED) parts.editors.items) }
{
    let callers = row_of(alloc, caller)?;
    let editors = row_of(alloc, editor)?;
    Ok(Parts {
        disks,
        callers,
        editors,
    })
}

/// How a server of one callers' port and one editors' port has ended: the number of its status, how many disks and doors
/// were handed back, and what was sent on the first line of each door that was given back.
#[derive(Drop)]
pub struct Outcome {
    /// The number of the status.
    pub number: u8,
    /// How many disks, callers' doors and editors' doors were handed back.
    pub back: (usize, usize, usize),
    /// What the caller was sent.
    pub caller: Vec<u8>,
    /// What the editor was sent.
    pub editor: Vec<u8>,
}

/// How a server has ended.
pub fn outcome_of(
    alloc: Global,
    served: &Served<MemDisk, MemDoor, MemDoor>,
) -> Result<Outcome, AllocError> {
    Ok(Outcome {
        number: served.status.number(),
        back: (
            served.disks.len(),
            served.callers.len(),
            served.editors.len(),
        ),
        caller: Vec::from_slice(alloc, first_sent(&served.callers))?,
        editor: Vec::from_slice(alloc, first_sent(&served.editors))?,
    })
}

/// What was sent on the first connection that was given back to the first of these doors.
fn first_sent(doors: &[MemDoor]) -> &[u8] {
    match doors.first() {
        Some(door) => sent_at(door),
        None => &[],
    }
}

/// What was sent on the first connection that was given back to a door.
pub fn sent_at(door: &MemDoor) -> &[u8] {
    match door.finished().first() {
        Some(line) => line.sent(),
        None => &[],
    }
}
