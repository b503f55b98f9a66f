//! The rows of a network's ports, as threads serve them. What a row has served is a fact of its type, so the threads say nothing.
ghost use Rattle.std.specs.Prelude.{◌≡◌, ◌<◌, ℕ, List, [], All, Option, None, true};
ghost use Rattle.pv_ports.specs.Ends.{line_of};
ghost use Rattle.pv_service.specs.Calls.{HasServedCalls};
ghost use Rattle.pv_service.specs.Doors.{door_of};
ghost use Rattle.pv_service.specs.Rows.{EachBecomes};
ghost use Rattle.pv_service.specs.Sessions.{HasServedSessions};
ghost use Rattle.pv_service.specs.declared.caller_stand.TheConstants.{MAX_ACCEPTED};

use pv_edits::Record;
use pv_group::{GroupRun, Live};
use pv_irc::{CentreRecord, IrcRules};
use pv_node::Rules;
use pv_outside::{Clock, Disk, Door, Sink, Source};
use pv_service::{CallerStand, EditorStand, Log, Signals, run_callers, run_editors};
use pv_udc::UdcRules;
use std::marker::{Brand, Model, PhantomData};
use std::sync::Wait;
use std::thread::Threads;

/// What a row of stands began with. The type of a row has it as a parameter.
pub trait RowStart<S> {
    /// Its stands, in order.
    ghost stands: { List S };

    /// The moment that their clock shows.
    ghost shown: { Option ℕ };
}

/// What a caller names, who picks the start at the call.
impl<S> RowStart<S> for Brand {
    ghost stands = { [] };

    ghost shown = { None };
}

/// The ports of a centre's callers. Contracts see whether they are served.
#[derive(Drop)]
pub struct CallersRow<
    const C: u8,
    N: GroupRun<CentreRecord>,
    D: Disk,
    O: Door + Drop,
    B: RowStart<CallerStand<C, N, D, O>>,
> {
    stands: Vec<CallerStand<C, N, D, O>>,
    is_served: bool,
    start: PhantomData<B>,
}

impl<
    const C: u8,
    N: GroupRun<CentreRecord>,
    D: Disk,
    O: Door + Drop,
    B: RowStart<CallerStand<C, N, D, O>>,
> Model for CallersRow<C, N, D, O, B> {
    ghost use Rattle.std.specs.Prelude.{◌≡◌, ◌<◌, Bool};
    ghost use denote.Param.{number};
    ghost use Rattle.pv_irc.specs.contracts.rules.IrcRulesRules.TheImpl as centre_rules;
    ghost use Rattle.pv_ports.specs.Ends.{line_of};
    ghost use Rattle.pv_service.specs.Calls.{HasServedCalls};
    ghost use Rattle.pv_service.specs.Doors.{door_of};
    ghost use Rattle.pv_service.specs.declared.caller_stand.TheConstants.{MAX_ACCEPTED};
    ghost use Rattle.pv_centres.specs.Rows.{IsRowOf};

    ghost Value = { Bool };

    ghost view = { λ row. row.is_served };

    ghost invariant = { λ row. IsRowOf (λ s. O.accepted s.door.value < MAX_ACCEPTED)
        (λ old new. HasServedCalls (centre_rules.ghosts (number C)) N.limits N.opening B.shown
        (line_of O.Line.Source O.Line.Sink) old.calls
        old.port.pass (door_of O.lines O.accepted O.finished O.faults old.door.value)
        new.port.pass (door_of O.lines O.accepted O.finished O.faults new.door.value) new.report.value)
        B.stands row.is_served row.stands.items };
}

impl<
    const C: u8,
    N: GroupRun<CentreRecord> + Send + Sync,
    D: Disk + Drop + Send,
    O: Door + Log + Drop + Send,
    B: RowStart<CallerStand<C, N, D, O>>,
> CallersRow<C, N, D, O, B> {
    /// A row that is not served yet.
    pub fn new(stands: Vec<CallerStand<C, N, D, O>>) -> CallersRow<C, N, D, O, B>
        requires start { stands.items ≡ B.stands }
        requires room { All (λ s. O.accepted s.door.value < MAX_ACCEPTED) stands.items }
    {
        CallersRow {
            stands,
            is_served: false,
            start: PhantomData,
        }
    }

    /// Serves each door, if it is not served yet.
    pub fn serve<H: Wait + Drop + Send + Sync, K: Clock + Sync, R: Wait + Threads + Sync>(
        &mut self,
        rt: &R,
        centre: &Live<IrcRules<C>, D, N, H>,
        clock: &K,
        signals: &Signals,
    )
    where
        O::Line: Send,
        requires shown { K.moment clock.now ≡ B.shown }
        ensures { self.new ≡ true }
    {
        if self.is_served {
            return;
        }
        run_callers(rt, centre, clock, signals, &mut self.stands);
        self.is_served = true;
    }

    /// The stands, each of which has served its door. A row that no thread has served is served now.
    pub fn into_served<H: Wait + Drop + Send + Sync, K: Clock + Sync, R: Wait + Threads + Sync>(
        self,
        rt: &R,
        centre: &Option<Box<Live<IrcRules<C>, D, N, H>>>,
        clock: &K,
        signals: &Signals,
    ) -> Vec<CallerStand<C, N, D, O>>
    where
        O::Line: Send,
        requires shown { K.moment clock.now ≡ B.shown }

        // A centre that is not there has no stands.
        requires there { centre.now ≡ None → B.stands ≡ [] }
        ensures served { EachBecomes (λ old new. HasServedCalls ⟦<IrcRules<C> as Rules>⟧ N.limits N.opening
            B.shown (line_of ⟦<O::Line as Source>⟧ ⟦<O::Line as Sink>⟧) old.calls
            old.port.pass (door_of O.lines O.accepted O.finished O.faults old.door.value)
            new.port.pass (door_of O.lines O.accepted O.finished O.faults new.door.value) new.report.value)
            B.stands result.items }
    {
        let mut row = self;
        if let Some(centre) = centre {
            row.serve(rt, centre, clock, signals);
        }
        let CallersRow { stands, .. } = row;
        stands
    }
}

/// The ports of the editors. Contracts see whether they are served.
#[derive(Drop)]
pub struct EditorsRow<
    U: GroupRun<Record>,
    D: Disk,
    E: Door + Drop,
    B: RowStart<EditorStand<U, D, E>>,
> {
    stands: Vec<EditorStand<U, D, E>>,
    is_served: bool,
    start: PhantomData<B>,
}

impl<U: GroupRun<Record>, D: Disk, E: Door + Drop, B: RowStart<EditorStand<U, D, E>>> Model
    for EditorsRow<U, D, E, B> {
    ghost use Rattle.std.specs.Prelude.{◌≡◌, ◌<◌, Bool};
    ghost use Rattle.pv_ports.specs.Ends.{line_of};
    ghost use Rattle.pv_service.specs.Doors.{door_of};
    ghost use Rattle.pv_service.specs.Sessions.{HasServedSessions};
    ghost use Rattle.pv_service.specs.declared.caller_stand.TheConstants.{MAX_ACCEPTED};
    ghost use Rattle.pv_udc.specs.contracts.rules.UdcRulesRules.TheImpl as update_rules;
    ghost use Rattle.pv_centres.specs.Rows.{IsRowOf};

    ghost Value = { Bool };

    ghost view = { λ row. row.is_served };

    ghost invariant = { λ row. IsRowOf (λ s. E.accepted s.door.value < MAX_ACCEPTED)
        (λ old new. HasServedSessions update_rules.ghosts U.limits U.opening
        (line_of E.Line.Source E.Line.Sink) old.calls
        old.port.pass (door_of E.lines E.accepted E.finished E.faults old.door.value)
        new.port.pass (door_of E.lines E.accepted E.finished E.faults new.door.value) new.report.value)
        B.stands row.is_served row.stands.items };
}

impl<
    U: GroupRun<Record> + Send + Sync,
    D: Disk + Drop + Send,
    E: Door + Log + Drop + Send,
    B: RowStart<EditorStand<U, D, E>>,
> EditorsRow<U, D, E, B> {
    /// A row that is not served yet.
    pub fn new(stands: Vec<EditorStand<U, D, E>>) -> EditorsRow<U, D, E, B>
        requires start { stands.items ≡ B.stands }
        requires room { All (λ s. E.accepted s.door.value < MAX_ACCEPTED) stands.items }
    {
        EditorsRow {
            stands,
            is_served: false,
            start: PhantomData,
        }
    }

    /// Serves each door, if it is not served yet.
    pub fn serve<H: Wait + Drop + Send + Sync, R: Wait + Threads + Sync>(
        &mut self,
        rt: &R,
        udc: &Live<UdcRules, D, U, H>,
        signals: &Signals,
    )
    where
        E::Line: Send,
        ensures { self.new ≡ true }
    {
        if self.is_served {
            return;
        }
        run_editors(rt, udc, signals, &mut self.stands);
        self.is_served = true;
    }

    /// The stands, each of which has served its door. A row that no thread has served is served now.
    pub fn into_served<H: Wait + Drop + Send + Sync, R: Wait + Threads + Sync>(
        self,
        rt: &R,
        udc: &Live<UdcRules, D, U, H>,
        signals: &Signals,
    ) -> Vec<EditorStand<U, D, E>>
    where
        E::Line: Send,
        ensures served { EachBecomes (λ old new. HasServedSessions ⟦<UdcRules as Rules>⟧ U.limits U.opening
            (line_of ⟦<E::Line as Source>⟧ ⟦<E::Line as Sink>⟧) old.calls
            old.port.pass (door_of E.lines E.accepted E.finished E.faults old.door.value)
            new.port.pass (door_of E.lines E.accepted E.finished E.faults new.door.value) new.report.value)
            B.stands result.items }
    {
        let mut row = self;
        row.serve(rt, udc, signals);
        let EditorsRow { stands, .. } = row;
        stands
    }
}
