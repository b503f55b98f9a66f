//! What a server ends with, and what it hands back then.
ghost use Rattle.std.specs.Prelude.{◌<◌, All, IfOk};
ghost use Rattle.pv_memory.specs.Doors.{accepted_of};
ghost use Rattle.pv_service.specs.declared.caller_stand.TheConstants.{MAX_ACCEPTED};

use super::network::ACCOUNT;
use super::parts::{
    ONE_EACH, Outcome, Parts, door_of, formatted, outcome_of, parts_of, serve_parts,
};
use super::screens::{Sent, bytes_of};
use pv_files::ThreadSpawner;
use pv_memory::{MemDisk, MemDoor};
use pv_outside::{Failed, Spawner};
use pv_session::Message;
use std::alloc::Global;
use std::sync::Wait;
use std::test::Fail;
use std::thread::Threads;

/// Words that ask for two lines at each port.
const TWO_CALLS: &str =
    "serve d --centres 1 --ports 1 --editors 1 --calls 2 --port 9000 --editor-port 9100";

/// The words, the calls that fail of the Update Centre's disk, the centre's disk, the callers' door and the editors'; and
/// what comes of it: what the caller and the editor are sent, and the number of the status. An editor makes an account,
/// and one caller comes in and hangs up.
#[derive(Clone, Copy)]
struct Case {
    words: &'static str,
    update: &'static [u64],
    centre: &'static [u64],
    caller: &'static [u64],
    editor: &'static [u64],
    screens: &'static [Sent],
    replies: &'static [u8],
    number: u8,
}

/// Nothing fails.
const DONE: Case = Case {
    words: ONE_EACH,
    update: &[],
    centre: &[],
    caller: &[],
    editor: &[],
    screens: &[Sent::Alone(Message::KeyAccount)],
    replies: b"OK\nOK 0\nBYE\n",
    number: 0,
};

/// A disk fails at its eighth call, which is the first after its formatting and its opening. A door fails at its first
/// accept, or since no second line comes in. The ports that met no fault serve their lines all the same. The second
/// disk that fails does so again as its node is closed.
const CASES: [Case; 7] = [
    DONE,
    Case {
        update: &[7],
        replies: b"OK\nNO 15 DISK\n",
        number: 8,
        ..DONE
    },
    Case {
        update: &[7, 8],
        replies: b"OK\nNO 15 DISK\n",
        number: 8,
        ..DONE
    },
    Case {
        centre: &[7],
        number: 8,
        ..DONE
    },
    Case {
        caller: &[0],
        screens: &[],
        number: 10,
        ..DONE
    },
    Case {
        editor: &[0],
        replies: b"",
        number: 10,
        ..DONE
    },
    Case {
        words: TWO_CALLS,
        number: 10,
        ..DONE
    },
];

/// The disks of a case.
fn disks_of(alloc: Global, case: Case) -> Result<Vec<MemDisk>, Fail> {
    let update = formatted(alloc, case.update)?;
    let centre = formatted(alloc, case.centre)?;
    Ok(vec![in alloc; update, centre]?)
}

/// The disks and the doors of a case.
fn case_parts(alloc: Global, case: Case) -> Result<Parts<MemDoor, MemDoor>, Fail>
    ensures callers { IfOk result (λ parts. All (λ d. accepted_of d < MAX_ACCEPTED) parts.callers.items) }
    ensures editors { IfOk result (λ parts. All (λ d. accepted_of d < MAX_ACCEPTED) parts.editors.items) }
{
    let caller = door_of(alloc, &[b""], case.caller)?;
    let editor = door_of(alloc, &[ACCOUNT], case.editor)?;
    parts_of(alloc, disks_of(alloc, case)?, caller, editor)
}

/// Serves a case.
fn played<R: Wait + Threads + Sync, P: Spawner>(
    rt: &R,
    alloc: Global,
    case: Case,
    spawner: &mut P,
) -> Result<Outcome, Fail> {
    let parts = case_parts(alloc, case)?;
    let served = serve_parts(rt, alloc, case.words, parts, spawner)?;
    Ok(outcome_of(alloc, &served)?)
}

#[test]
fn whatever_fails_all_is_handed_back(rt: HostRuntime) -> Result<(), Fail> {
    for case in CASES {
        let outcome = played(&rt, rt.alloc(), case, &mut ThreadSpawner::new())?;
        assert_eq!(rt; (outcome.number, outcome.back), (case.number, (2, 1, 1)));
        let screens = bytes_of(rt.alloc(), case.screens)?;
        assert_eq!(rt;
            (outcome.caller.as_slice(), outcome.editor.as_slice()),
            (screens.as_slice(), case.replies)
        );
    }
    Ok(())
}

/// A spawner that refuses each start.
#[derive(Drop)]
struct Refusing {
    refused: u64,
}

impl Spawner for Refusing {
    ghost refused = { λ s. s.refused };

    fn start(&mut self, _jobs: usize) -> Result<(), Failed> {
        self.refused = self.refused.saturating_add(1);
        Err(Failed)
    }
}

#[test]
fn start_that_is_refused_serves_nobody(rt: HostRuntime) -> Result<(), Fail> {
    let mut spawner = Refusing { refused: 0 };
    let outcome = played(&rt, rt.alloc(), DONE, &mut spawner)?;
    assert_eq!(rt; (outcome.number, outcome.back), (11, (2, 1, 1)));
    let is_unsent = outcome.caller.is_empty() && outcome.editor.is_empty();
    assert!(rt; is_unsent && spawner.refused == 1);
    Ok(())
}
