//! Rows of stands, each stand with a thread of its own. A row keeps its stands, in order.
ghost use Rattle.std.specs.Prelude.{◌<◌, All};
ghost use Rattle.std.specs.Thread.{IsSync};
ghost use denote.Param.{number};
ghost use Rattle.pv_irc.specs.contracts.rules.IrcRulesRules.TheImpl as centre_rules;
ghost use Rattle.pv_ports.specs.Ends.{line_of};
ghost use Rattle.pv_service.specs.Beside.{Accepts, Changes};
ghost use Rattle.pv_service.specs.Calls.{HasServedCalls};
ghost use Rattle.pv_service.specs.Doors.{door_of};
ghost use Rattle.pv_service.specs.Rounds.{HasCarried, carrier_at};
ghost use Rattle.pv_service.specs.Rows.{EachBecomes};
ghost use Rattle.pv_service.specs.Sessions.{HasServedSessions};
ghost use Rattle.pv_service.specs.declared.caller_stand.TheConstants.{MAX_ACCEPTED};
ghost use Rattle.pv_udc.specs.contracts.rules.UdcRulesRules.TheImpl as update_rules;

use crate::beside::change_beside;
use crate::caller_stand::{CallerStand, serve_callers};
use crate::carrier_stand::{CarrierStand, carry_rounds};
use crate::editor_stand::{EditorStand, serve_editors};
use crate::log::Log;
use crate::signals::Signals;
use pv_edits::Record;
use pv_group::{GroupRun, Live};
use pv_irc::{CentreRecord, IrcRules};
use pv_node::Rules;
use pv_outside::{Clock, Disk, Door, Link, Sink, Source};
use pv_udc::UdcRules;
use std::sync::Wait;
use std::thread::{Threads, for_each_mut};

/// Serves the callers' stands of a centre, each in a thread of its own.
pub fn run_callers<
    const C: u8,
    N: GroupRun<CentreRecord> + Send + Sync,
    D: Disk + Drop + Send,
    H: Wait + Drop + Send + Sync,
    O: Door + Log + Drop + Send,
    K: Clock + Sync,
    R: Wait + Threads + Sync,
>(
    rt: &R,
    centre: &Live<IrcRules<C>, D, N, H>,
    clock: &K,
    signals: &Signals,
    stands: &mut [CallerStand<C, N, D, O>],
)
where
    O::Line: Send,
    requires room { All (λ stand. O.accepted stand.door.value < MAX_ACCEPTED) stands.old }
    ensures served { EachBecomes (λ old new. HasServedCalls ⟦<IrcRules<C> as Rules>⟧ N.limits N.opening
        (K.moment clock.now) (line_of ⟦<O::Line as Source>⟧ ⟦<O::Line as Sink>⟧) old.calls
        old.port.pass (door_of O.lines O.accepted O.finished O.faults old.door.value)
        new.port.pass (door_of O.lines O.accepted O.finished O.faults new.door.value) new.report.value)
        stands.old stands.new }
{
    let threads = stands.len();
    if threads > 0 {
        for_each_mut(
            rt,
            stands,
            threads,
            &|_, stand: &mut CallerStand<C, N, D, O>|
                requires { O.accepted stand.old.door.value < MAX_ACCEPTED }
                ensures { HasServedCalls (centre_rules.ghosts (number C)) N.limits N.opening (K.moment clock.entry.now)
                    (line_of O.Line.Source O.Line.Sink) stand.old.calls
                    stand.old.port.pass (door_of O.lines O.accepted O.finished O.faults stand.old.door.value)
                    stand.new.port.pass (door_of O.lines O.accepted O.finished O.faults stand.new.door.value)
                    stand.new.report.value }
            { serve_callers(rt, centre, clock, signals, stand) },
        );
    }
}

/// Serves the editors' stands of the Update Centre, each in a thread of its own.
pub fn run_editors<
    N: GroupRun<Record> + Send + Sync,
    D: Disk + Drop + Send,
    H: Wait + Drop + Send + Sync,
    O: Door + Log + Drop + Send,
    R: Wait + Threads + Sync,
>(rt: &R, udc: &Live<UdcRules, D, N, H>, signals: &Signals, stands: &mut [EditorStand<N, D, O>])
where
    O::Line: Send,
    requires room { All (λ stand. O.accepted stand.door.value < MAX_ACCEPTED) stands.old }
    ensures served { EachBecomes (λ old new. HasServedSessions ⟦<UdcRules as Rules>⟧ N.limits N.opening
        (line_of ⟦<O::Line as Source>⟧ ⟦<O::Line as Sink>⟧) old.calls
        old.port.pass (door_of O.lines O.accepted O.finished O.faults old.door.value)
        new.port.pass (door_of O.lines O.accepted O.finished O.faults new.door.value) new.report.value)
        stands.old stands.new }
{
    let threads = stands.len();
    if threads > 0 {
        for_each_mut(
            rt,
            stands,
            threads,
            &|_, stand: &mut EditorStand<N, D, O>|
                requires { O.accepted stand.old.door.value < MAX_ACCEPTED }
                ensures { HasServedSessions update_rules.ghosts N.limits N.opening
                    (line_of O.Line.Source O.Line.Sink) stand.old.calls
                    stand.old.port.pass (door_of O.lines O.accepted O.finished O.faults stand.old.door.value)
                    stand.new.port.pass (door_of O.lines O.accepted O.finished O.faults stand.new.door.value)
                    stand.new.report.value }
            { serve_editors(rt, udc, signals, stand) },
        );
    }
}

/// Serves the callers' stands of a centre, with its carrier's stand beside them. If no thread can be started for the
/// carrier, it makes its rounds once they are served.
pub fn run_centre<
    const C: u8,
    U: GroupRun<Record> + Send + Sync,
    N: GroupRun<CentreRecord> + Send + Sync,
    D: Disk + Drop + Send,
    H: Wait + Drop + Send + Sync,
    O: Door + Log + Drop + Send,
    K: Clock + Sync,
    L: Link + Drop + Send,
    R: Wait + Threads + Sync,
>(
    rt: &R,
    udc: &Live<UdcRules, D, U, H>,
    centre: &Live<IrcRules<C>, D, N, H>,
    clock: &K,
    signals: &Signals,
    callers: &mut Vec<CallerStand<C, N, D, O>>,
    carrier: &mut CarrierStand<C, U, N, D, L>,
)
where
    O::Line: Send,
    requires room { All (λ stand. O.accepted stand.door.value < MAX_ACCEPTED) callers.old.items }
    ensures served { EachBecomes (λ old new. HasServedCalls ⟦<IrcRules<C> as Rules>⟧ N.limits N.opening
        (K.moment clock.now) (line_of ⟦<O::Line as Source>⟧ ⟦<O::Line as Sink>⟧) old.calls
        old.port.pass (door_of O.lines O.accepted O.finished O.faults old.door.value)
        new.port.pass (door_of O.lines O.accepted O.finished O.faults new.door.value) new.report.value)
        callers.old.items callers.new.items }
    ensures carried { HasCarried ⟦<UdcRules as Rules>⟧ ⟦<IrcRules<C> as Rules>⟧ ⟦<L as Link>⟧
        U.limits N.limits U.opening N.opening C
        (carrier_at carrier.old.carrier carrier.old.down.value carrier.old.up.value)
        (carrier_at carrier.new.carrier carrier.new.down.value carrier.new.up.value) carrier.new.report.value }
{
    carry_beside(
        rt,
        udc,
        centre,
        signals,
        carrier,
        callers,
        &|callers: &mut Vec<CallerStand<C, N, D, O>>| -> ()
            requires { IsSync R.row × IsSync H.row
                × All (λ stand. O.accepted stand.door.value < MAX_ACCEPTED) callers.old.items }
            ensures { EachBecomes (λ old new. HasServedCalls (centre_rules.ghosts (number C))
                N.limits N.opening (K.moment clock.entry.now) (line_of O.Line.Source O.Line.Sink) old.calls
                old.port.pass (door_of O.lines O.accepted O.finished O.faults old.door.value)
                new.port.pass (door_of O.lines O.accepted O.finished O.faults new.door.value) new.report.value)
                callers.old.items callers.new.items }
        { run_callers(rt, centre, clock, signals, callers) },
    );
}

/// Carries for a centre, with something else beside it.
fn carry_beside<
    const C: u8,
    U: GroupRun<Record> + Send + Sync,
    N: GroupRun<CentreRecord> + Send + Sync,
    D: Disk + Drop + Send,
    H: Wait + Drop + Send + Sync,
    L: Link + Drop + Send,
    A,
    F: Fn(&mut A),
    R: Wait + Threads + Sync,
>(
    rt: &R,
    udc: &Live<UdcRules, D, U, H>,
    centre: &Live<IrcRules<C>, D, N, H>,
    signals: &Signals,
    carrier: &mut CarrierStand<C, U, N, D, L>,
    other: &mut A,
    change_other: &F,
)
    requires { Accepts F.Fn change_other.now other.old }
    ensures carried { HasCarried ⟦<UdcRules as Rules>⟧ ⟦<IrcRules<C> as Rules>⟧ ⟦<L as Link>⟧
        U.limits N.limits U.opening N.opening C
        (carrier_at carrier.old.carrier carrier.old.down.value carrier.old.up.value)
        (carrier_at carrier.new.carrier carrier.new.down.value carrier.new.up.value) carrier.new.report.value }
    ensures other { Changes F.Fn change_other.now other.old other.new }
{
    change_beside(
        rt,
        carrier,
        other,
        &|carrier: &mut CarrierStand<C, U, N, D, L>| -> ()
            requires { IsSync R.row × IsSync H.row }
            ensures { HasCarried update_rules.ghosts (centre_rules.ghosts (number C)) L.Link
                U.limits N.limits U.opening N.opening C
                (carrier_at carrier.old.carrier carrier.old.down.value carrier.old.up.value)
                (carrier_at carrier.new.carrier carrier.new.down.value carrier.new.up.value)
                carrier.new.report.value }
        { carry_rounds(rt, udc, centre, signals, carrier) },
        change_other,
    );
}
