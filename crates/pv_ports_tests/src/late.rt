//! A caller's second look at a frame finds what was applied after his first.
ghost use Rattle.std.specs.Prelude.{◌≡◌, None, IfOk, false};
ghost use Rattle.pv_node.specs.Standing.{StandsFor};

use super::nodes::{LIMITS, apply, apply_first, frame_with, fresh, line_of, name, put};
use pv_edits::DownRecord;
use pv_group::{GroupRun, GroupStart, Live, open_live};
use pv_irc::{CentreRecord, IrcRules};
use pv_live::Pass;
use pv_memory::{MemDisk, MemLine, SetClock};
use pv_node::{Opened, Rules};
use pv_outside::{Failed, Line, Reports, Sink, Source};
use pv_ports::{CallEnd, CallerPort};
use pv_screen::{BUFFER, Screen, compose};
use std::alloc::Global;
use std::marker::Brand;
use std::process::Abort;
use std::sync::Wait;
use std::test::Fail;

/// How many bytes a port reads at a time.
const AHEAD: usize = 256;

/// A caller's line: before its second read a record is applied at his centre, by a pass of its own.
#[derive(Drop)]
struct LateLine<'a, N: GroupRun<CentreRecord>, H: Wait + Drop, W: Wait> {
    rt: &'a W,
    centre: &'a Live<IrcRules<0>, MemDisk, N, H>,
    pass: Pass<IrcRules<0>, N>,
    late: DownRecord,
    reads: u8,
    line: MemLine,
}

impl<'a, N: GroupRun<CentreRecord>, H: Wait + Drop, W: Wait> Source for LateLine<'a, N, H, W> {
    ghost use Rattle.std.specs.Prelude.{Some};

    ghost read_faults = { λ l. l.line.source.plan.faults };

    ghost ended = { λ l. l.line.source.ended };

    ghost taken = { λ l. Some l.line.source.read };

    ghost left = { λ l. Some l.line.source.left };

    fn read(&mut self, into: &mut [u8]) -> Result<usize, Failed> {
        self.line.read(into)
    }
}

impl<'a, N: GroupRun<CentreRecord>, H: Wait + Drop, W: Wait> Sink for LateLine<'a, N, H, W> {
    ghost use Rattle.std.specs.Prelude.{Some};

    ghost write_faults = { λ l. l.line.sink.plan.faults };

    ghost written = { λ l. Some l.line.sink.bytes };

    ghost writes = { λ l. l.line.sink.writes };

    fn write_all(&mut self, bytes: &[u8]) -> Result<(), Failed> {
        self.line.write_all(bytes)
    }
}

impl<'a, N: GroupRun<CentreRecord>, H: Wait + Drop, W: Wait> Line for LateLine<'a, N, H, W> {
    fn hear(&mut self, into: &mut [u8]) -> Result<usize, Failed> {
        self.reads = self.reads.saturating_add(1);
        if self.reads == 2 {
            let _ = apply(self.rt, self.centre, &mut self.pass, 2, self.late);
        }
        self.line.hear(into)
    }

    fn say(&mut self, bytes: &[u8]) -> Result<(), Failed> {
        self.line.say(bytes)
    }
}

#[test]
fn second_look_finds_what_was_applied_since(rt: HostRuntime) -> Result<(), Fail> {
    let centre = fresh::<IrcRules<0>>(rt.alloc(), LIMITS, &[])?;
    let shown = look_twice::<Brand, _>(&rt, rt.alloc(), centre, GroupStart::new(2))?;
    assert_eq!(rt; shown, (true, true));
    Ok(())
}

/// The last screen that a caller was sent is the frame with this letter.
fn is_last(sent: &[u8], letter: u8) -> Result<bool, Fail> {
    let mut bytes = [0; BUFFER];
    let count = Screen::Whole(compose(frame_with(letter)?.frame(), name()?)).bytes(&mut bytes);
    Ok(sent.ends_with(&bytes[..count]))
}

/// A caller keys `*1#` twice, and the frame changes before the second is read. Returns whether the call ended with its
/// line, and whether he saw the later frame last.
fn look_twice<N: GroupRun<CentreRecord> + Send + Sync, R: Wait>(
    rt: &R,
    alloc: Global,
    centre: Opened<IrcRules<0>, MemDisk>,
    start: GroupStart<CentreRecord>,
) -> Result<(bool, bool), Fail>
    requires stands { StandsFor ⟦<IrcRules<0> as Rules>⟧ ⟦<MemDisk as Reports>⟧ centre.node N.opening }
    requires rest { (centre.node.hand ≡ None) × (centre.node.state.limits ≡ N.limits) × (2 ≡ N.passes) }
    requires start { start ≡ record {
      book = N.book;
      told = N.told;
      failed = N.failed;
      passes = N.passes;
      taken = N.taken;
    } }
{
    let (live, mut passes) = open_live::<IrcRules<0>, MemDisk, N, &R>(
        rt,
        alloc,
        centre.node,
        2,
        start,
    )?;
    let mut pass = passes.pop().ok_or("a pass")?;
    apply_first(rt, &live, &mut pass, 2, 0)?;
    let mut port = CallerPort::new(alloc, passes.pop().ok_or("a pass")?)?;
    let mut line = LateLine {
        rt,
        centre: &live,
        pass,
        late: put(3, b'B')?,
        reads: 0,
        line: keyed(alloc)?,
    };
    let end = port.serve_call(rt, &live, &mut line, &SetClock::new(7));
    Ok((
        matches!(end, CallEnd::Hung),
        is_last(line.line.sent(), b'B')?,
    ))
}

/// A line on which the frame is asked for at the end of a first read and in a second.
fn keyed(alloc: Global) -> Result<MemLine, Fail>
    ensures { IfOk result (λ line. line.source.ended ≡ false) }
{
    let first = b"1000000001ABCD*1#";
    let mut keys = Vec::new(alloc);
    // Until the account is keyed all but digits is ignored.
    for _ in first.len()..AHEAD {
        keys.push(0)?;
    }
    keys.extend_from_slice(first)?;
    keys.extend_from_slice(b"*1#")?;
    line_of(alloc, &keys, &[], &[])
}
