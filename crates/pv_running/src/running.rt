//! The threads of a network: one for each port, and one for each centre's carrier. If the machine gives fewer, ports are served
//! one after another, and carriers make their rounds once these are done.
ghost use Rattle.std.specs.Prelude.{◌≡◌, ◌<◌, [], All, None};
ghost use Rattle.std.specs.Thread.{IsSync};
ghost use Rattle.pv_ports.specs.Ends.{line_of};
ghost use Rattle.pv_service.specs.Calls.{HasServedCalls};
ghost use Rattle.pv_service.specs.Doors.{door_of};
ghost use Rattle.pv_service.specs.Rows.{EachBecomes};
ghost use Rattle.pv_service.specs.Sessions.{HasServedSessions};
ghost use Rattle.pv_service.specs.declared.caller_stand.TheConstants.{MAX_ACCEPTED};
ghost use Rattle.pv_centres.specs.Opening.{count_of};

use crate::beside::do_beside;
use crate::network::{Lives, OpenNetwork};
use pv_centres::{AllCarriers, AllPorts, CallersRow, CentreCarrier, EditorsRow, RowStart};
use pv_edits::Record;
use pv_group::{GroupRun, Live};
use pv_irc::{CentreRecord, IrcRules};
use pv_node::Rules;
use pv_outside::{Clock, Disk, Door, Sink, Source};
use pv_service::{CallerStand, EditorStand, Log, Signals};
use pv_udc::UdcRules;
use std::alloc::Global;
use std::marker::Brand;
use std::mem;
use std::sync::Wait;
use std::thread::Threads;

/// Serves the callers of a centre. One that is not there has none.
fn serve_if_there<
    const C: u8,
    N: GroupRun<CentreRecord> + Send + Sync,
    D: Disk + Drop + Send,
    H: Wait + Drop + Send + Sync,
    O: Door + Log + Drop + Send,
    K: Clock + Sync,
    B: RowStart<CallerStand<C, N, D, O>>,
    R: Wait + Threads + Sync,
>(
    rt: &R,
    centre: &Option<Box<Live<IrcRules<C>, D, N, H>>>,
    clock: &K,
    signals: &Signals,
    row: &mut CallersRow<C, N, D, O, B>,
)
where
    O::Line: Send,
    requires { K.moment clock.now ≡ B.shown }
{
    if let Some(centre) = centre {
        row.serve(rt, centre, clock, signals);
    }
}

/// Carries for a centre. One that is not there has no carrier.
fn carry_if_there<
    const C: u8,
    U: GroupRun<Record>,
    N: GroupRun<CentreRecord>,
    D: Disk + Drop,
    H: Wait + Drop,
    R: Wait,
>(
    rt: &R,
    udc: &Live<UdcRules, D, U, H>,
    centre: &Option<Box<Live<IrcRules<C>, D, N, H>>>,
    signals: &Signals,
    carrier: &mut Option<CentreCarrier<C, U, N, D>>,
) {
    if let (Some(centre), Some(carrier)) = (centre, carrier) {
        carrier.carry(rt, udc, centre, signals);
    }
}

/// Serves the editors, with the rows of all centres and their carriers beside them.
fn with_editors<
    GA: FnMut() + Send,
    GB: FnMut() + Send,
    GC: FnMut() + Send,
    GD: FnMut() + Send,
    GF: FnMut() + Send,
    GG: FnMut() + Send,
    GH: FnMut() + Send,
    GI: FnMut() + Send,
    U: GroupRun<Record> + Send + Sync,
    D: Disk + Drop + Send,
    H: Wait + Drop + Send + Sync,
    E: Door + Log + Drop + Send,
    BE: RowStart<EditorStand<U, D, E>> + Send,
    R: Wait + Threads + Sync,
>(
    rt: &R,
    udc: &Live<UdcRules, D, U, H>,
    signals: &Signals,
    a: GA,
    b: GB,
    c: GC,
    d: GD,
    f: GF,
    g: GG,
    h: GH,
    i: GI,
    editors: &mut EditorsRow<U, D, E, BE>,
)
where
    E::Line: Send,
    requires rows_accepted { GA.pre a × GB.pre b × GC.pre c × GD.pre d }
    requires carriers_accepted { GF.pre f × GG.pre g × GH.pre h × GI.pre i }
{
    do_beside(
        rt,
        a,
        b,
        c,
        d,
        || -> ()
            requires { IsSync R.row × IsSync H.row }
        { editors.serve(rt, udc, signals) },
        f,
        g,
        h,
        i,
    );
}

/// Runs the threads of centre 3 and of the editors, with those of the earlier centres beside them.
fn with_fourth<
    GA: FnMut() + Send,
    GB: FnMut() + Send,
    GC: FnMut() + Send,
    GF: FnMut() + Send,
    GG: FnMut() + Send,
    GH: FnMut() + Send,
    U: GroupRun<Record> + Send + Sync,
    N3: GroupRun<CentreRecord> + Send + Sync,
    D: Disk + Drop + Send,
    H: Wait + Drop + Send + Sync,
    O: Door + Log + Drop + Send,
    K: Clock + Sync,
    E: Door + Log + Drop + Send,
    B3: RowStart<CallerStand<3, N3, D, O>> + Send,
    BE: RowStart<EditorStand<U, D, E>> + Send,
    R: Wait + Threads + Sync,
>(
    rt: &R,
    udc: &Live<UdcRules, D, U, H>,
    clock: &K,
    signals: &Signals,
    a: GA,
    b: GB,
    c: GC,
    f: GF,
    g: GG,
    h: GH,
    fourth_centre: &Option<Box<Live<IrcRules<3>, D, N3, H>>>,
    fourth: &mut CallersRow<3, N3, D, O, B3>,
    fourth_carrier: &mut Option<CentreCarrier<3, U, N3, D>>,
    editors: &mut EditorsRow<U, D, E, BE>,
)
where
    O::Line: Send,
    E::Line: Send,
    requires rows_accepted { GA.pre a × GB.pre b × GC.pre c }
    requires carriers_accepted { GF.pre f × GG.pre g × GH.pre h }
    requires shown { K.moment clock.now ≡ B3.shown }
{
    with_editors(
        rt,
        udc,
        signals,
        a,
        b,
        c,
        || -> ()
            requires { IsSync R.row × IsSync H.row × (K.moment clock.now ≡ B3.shown) }
        { serve_if_there(rt, fourth_centre, clock, signals, fourth) },
        f,
        g,
        h,
        || -> ()
            requires { IsSync R.row × IsSync H.row }
        { carry_if_there(rt, udc, fourth_centre, signals, fourth_carrier) },
        editors,
    );
}

/// Runs the carrier of centre 2 and the threads of the later ones, with the others beside them.
fn with_third_carrier<
    GA: FnMut() + Send,
    GB: FnMut() + Send,
    GC: FnMut() + Send,
    GF: FnMut() + Send,
    GG: FnMut() + Send,
    U: GroupRun<Record> + Send + Sync,
    N2: GroupRun<CentreRecord> + Send + Sync,
    N3: GroupRun<CentreRecord> + Send + Sync,
    D: Disk + Drop + Send,
    H: Wait + Drop + Send + Sync,
    O: Door + Log + Drop + Send,
    K: Clock + Sync,
    E: Door + Log + Drop + Send,
    B3: RowStart<CallerStand<3, N3, D, O>> + Send,
    BE: RowStart<EditorStand<U, D, E>> + Send,
    R: Wait + Threads + Sync,
>(
    rt: &R,
    udc: &Live<UdcRules, D, U, H>,
    clock: &K,
    signals: &Signals,
    a: GA,
    b: GB,
    c: GC,
    f: GF,
    g: GG,
    third_centre: &Option<Box<Live<IrcRules<2>, D, N2, H>>>,
    third_carrier: &mut Option<CentreCarrier<2, U, N2, D>>,
    fourth_centre: &Option<Box<Live<IrcRules<3>, D, N3, H>>>,
    fourth: &mut CallersRow<3, N3, D, O, B3>,
    fourth_carrier: &mut Option<CentreCarrier<3, U, N3, D>>,
    editors: &mut EditorsRow<U, D, E, BE>,
)
where
    O::Line: Send,
    E::Line: Send,
    requires rows_accepted { GA.pre a × GB.pre b × GC.pre c }
    requires carriers_accepted { GF.pre f × GG.pre g }
    requires shown { K.moment clock.now ≡ B3.shown }
{
    with_fourth(
        rt,
        udc,
        clock,
        signals,
        a,
        b,
        c,
        f,
        g,
        || -> ()
            requires { IsSync R.row × IsSync H.row }
        { carry_if_there(rt, udc, third_centre, signals, third_carrier) },
        fourth_centre,
        fourth,
        fourth_carrier,
        editors,
    );
}

/// Runs the threads of centre 2 and the later ones, with those of the earlier centres beside them.
fn with_third<
    GA: FnMut() + Send,
    GB: FnMut() + Send,
    GF: FnMut() + Send,
    GG: FnMut() + Send,
    U: GroupRun<Record> + Send + Sync,
    N2: GroupRun<CentreRecord> + Send + Sync,
    N3: GroupRun<CentreRecord> + Send + Sync,
    D: Disk + Drop + Send,
    H: Wait + Drop + Send + Sync,
    O: Door + Log + Drop + Send,
    K: Clock + Sync,
    E: Door + Log + Drop + Send,
    B2: RowStart<CallerStand<2, N2, D, O>> + Send,
    B3: RowStart<CallerStand<3, N3, D, O>> + Send,
    BE: RowStart<EditorStand<U, D, E>> + Send,
    R: Wait + Threads + Sync,
>(
    rt: &R,
    udc: &Live<UdcRules, D, U, H>,
    clock: &K,
    signals: &Signals,
    a: GA,
    b: GB,
    f: GF,
    g: GG,
    third_centre: &Option<Box<Live<IrcRules<2>, D, N2, H>>>,
    third: &mut CallersRow<2, N2, D, O, B2>,
    third_carrier: &mut Option<CentreCarrier<2, U, N2, D>>,
    fourth_centre: &Option<Box<Live<IrcRules<3>, D, N3, H>>>,
    fourth: &mut CallersRow<3, N3, D, O, B3>,
    fourth_carrier: &mut Option<CentreCarrier<3, U, N3, D>>,
    editors: &mut EditorsRow<U, D, E, BE>,
)
where
    O::Line: Send,
    E::Line: Send,
    requires rows_accepted { GA.pre a × GB.pre b }
    requires carriers_accepted { GF.pre f × GG.pre g }
    requires shown { (K.moment clock.now ≡ B2.shown) × (K.moment clock.now ≡ B3.shown) }
{
    with_third_carrier(
        rt,
        udc,
        clock,
        signals,
        a,
        b,
        || -> ()
            requires { IsSync R.row × IsSync H.row × (K.moment clock.now ≡ B2.shown) }
        { serve_if_there(rt, third_centre, clock, signals, third) },
        f,
        g,
        third_centre,
        third_carrier,
        fourth_centre,
        fourth,
        fourth_carrier,
        editors,
    );
}

/// Runs the carrier of centre 1 and the threads of the later ones, with the others beside them.
fn with_second_carrier<
    GA: FnMut() + Send,
    GB: FnMut() + Send,
    GF: FnMut() + Send,
    U: GroupRun<Record> + Send + Sync,
    N1: GroupRun<CentreRecord> + Send + Sync,
    N2: GroupRun<CentreRecord> + Send + Sync,
    N3: GroupRun<CentreRecord> + Send + Sync,
    D: Disk + Drop + Send,
    H: Wait + Drop + Send + Sync,
    O: Door + Log + Drop + Send,
    K: Clock + Sync,
    E: Door + Log + Drop + Send,
    B2: RowStart<CallerStand<2, N2, D, O>> + Send,
    B3: RowStart<CallerStand<3, N3, D, O>> + Send,
    BE: RowStart<EditorStand<U, D, E>> + Send,
    R: Wait + Threads + Sync,
>(
    rt: &R,
    udc: &Live<UdcRules, D, U, H>,
    clock: &K,
    signals: &Signals,
    a: GA,
    b: GB,
    f: GF,
    second_centre: &Option<Box<Live<IrcRules<1>, D, N1, H>>>,
    second_carrier: &mut Option<CentreCarrier<1, U, N1, D>>,
    third_centre: &Option<Box<Live<IrcRules<2>, D, N2, H>>>,
    third: &mut CallersRow<2, N2, D, O, B2>,
    third_carrier: &mut Option<CentreCarrier<2, U, N2, D>>,
    fourth_centre: &Option<Box<Live<IrcRules<3>, D, N3, H>>>,
    fourth: &mut CallersRow<3, N3, D, O, B3>,
    fourth_carrier: &mut Option<CentreCarrier<3, U, N3, D>>,
    editors: &mut EditorsRow<U, D, E, BE>,
)
where
    O::Line: Send,
    E::Line: Send,
    requires rows_accepted { GA.pre a × GB.pre b }
    requires carriers_accepted { GF.pre f }
    requires shown { (K.moment clock.now ≡ B2.shown) × (K.moment clock.now ≡ B3.shown) }
{
    with_third(
        rt,
        udc,
        clock,
        signals,
        a,
        b,
        f,
        || -> ()
            requires { IsSync R.row × IsSync H.row }
        { carry_if_there(rt, udc, second_centre, signals, second_carrier) },
        third_centre,
        third,
        third_carrier,
        fourth_centre,
        fourth,
        fourth_carrier,
        editors,
    );
}

/// Runs the threads of centre 1 and the later ones, with those of centre 0 beside them.
fn with_second<
    GA: FnMut() + Send,
    GF: FnMut() + Send,
    U: GroupRun<Record> + Send + Sync,
    N1: GroupRun<CentreRecord> + Send + Sync,
    N2: GroupRun<CentreRecord> + Send + Sync,
    N3: GroupRun<CentreRecord> + Send + Sync,
    D: Disk + Drop + Send,
    H: Wait + Drop + Send + Sync,
    O: Door + Log + Drop + Send,
    K: Clock + Sync,
    E: Door + Log + Drop + Send,
    B1: RowStart<CallerStand<1, N1, D, O>> + Send,
    B2: RowStart<CallerStand<2, N2, D, O>> + Send,
    B3: RowStart<CallerStand<3, N3, D, O>> + Send,
    BE: RowStart<EditorStand<U, D, E>> + Send,
    R: Wait + Threads + Sync,
>(
    rt: &R,
    udc: &Live<UdcRules, D, U, H>,
    clock: &K,
    signals: &Signals,
    a: GA,
    f: GF,
    second_centre: &Option<Box<Live<IrcRules<1>, D, N1, H>>>,
    second: &mut CallersRow<1, N1, D, O, B1>,
    second_carrier: &mut Option<CentreCarrier<1, U, N1, D>>,
    third_centre: &Option<Box<Live<IrcRules<2>, D, N2, H>>>,
    third: &mut CallersRow<2, N2, D, O, B2>,
    third_carrier: &mut Option<CentreCarrier<2, U, N2, D>>,
    fourth_centre: &Option<Box<Live<IrcRules<3>, D, N3, H>>>,
    fourth: &mut CallersRow<3, N3, D, O, B3>,
    fourth_carrier: &mut Option<CentreCarrier<3, U, N3, D>>,
    editors: &mut EditorsRow<U, D, E, BE>,
)
where
    O::Line: Send,
    E::Line: Send,
    requires rows_accepted { GA.pre a }
    requires carriers_accepted { GF.pre f }
    requires shown { (K.moment clock.now ≡ B1.shown) × (K.moment clock.now ≡ B2.shown)
        × (K.moment clock.now ≡ B3.shown) }
{
    with_second_carrier(
        rt,
        udc,
        clock,
        signals,
        a,
        || -> ()
            requires { IsSync R.row × IsSync H.row × (K.moment clock.now ≡ B1.shown) }
        { serve_if_there(rt, second_centre, clock, signals, second) },
        f,
        second_centre,
        second_carrier,
        third_centre,
        third,
        third_carrier,
        fourth_centre,
        fourth,
        fourth_carrier,
        editors,
    );
}

/// Runs the carrier of centre 0 and the threads of the later ones, with the row of centre 0 beside them.
fn with_first_carrier<
    GA: FnMut() + Send,
    U: GroupRun<Record> + Send + Sync,
    N0: GroupRun<CentreRecord> + Send + Sync,
    N1: GroupRun<CentreRecord> + Send + Sync,
    N2: GroupRun<CentreRecord> + Send + Sync,
    N3: GroupRun<CentreRecord> + Send + Sync,
    D: Disk + Drop + Send,
    H: Wait + Drop + Send + Sync,
    O: Door + Log + Drop + Send,
    K: Clock + Sync,
    E: Door + Log + Drop + Send,
    B1: RowStart<CallerStand<1, N1, D, O>> + Send,
    B2: RowStart<CallerStand<2, N2, D, O>> + Send,
    B3: RowStart<CallerStand<3, N3, D, O>> + Send,
    BE: RowStart<EditorStand<U, D, E>> + Send,
    R: Wait + Threads + Sync,
>(
    rt: &R,
    udc: &Live<UdcRules, D, U, H>,
    clock: &K,
    signals: &Signals,
    a: GA,
    first_centre: &Option<Box<Live<IrcRules<0>, D, N0, H>>>,
    first_carrier: &mut Option<CentreCarrier<0, U, N0, D>>,
    second_centre: &Option<Box<Live<IrcRules<1>, D, N1, H>>>,
    second: &mut CallersRow<1, N1, D, O, B1>,
    second_carrier: &mut Option<CentreCarrier<1, U, N1, D>>,
    third_centre: &Option<Box<Live<IrcRules<2>, D, N2, H>>>,
    third: &mut CallersRow<2, N2, D, O, B2>,
    third_carrier: &mut Option<CentreCarrier<2, U, N2, D>>,
    fourth_centre: &Option<Box<Live<IrcRules<3>, D, N3, H>>>,
    fourth: &mut CallersRow<3, N3, D, O, B3>,
    fourth_carrier: &mut Option<CentreCarrier<3, U, N3, D>>,
    editors: &mut EditorsRow<U, D, E, BE>,
)
where
    O::Line: Send,
    E::Line: Send,
    requires row_accepted { GA.pre a }
    requires shown { (K.moment clock.now ≡ B1.shown) × (K.moment clock.now ≡ B2.shown)
        × (K.moment clock.now ≡ B3.shown) }
{
    with_second(
        rt,
        udc,
        clock,
        signals,
        a,
        || -> ()
            requires { IsSync R.row × IsSync H.row }
        { carry_if_there(rt, udc, first_centre, signals, first_carrier) },
        second_centre,
        second,
        second_carrier,
        third_centre,
        third,
        third_carrier,
        fourth_centre,
        fourth,
        fourth_carrier,
        editors,
    );
}

/// Runs the threads of all centres and of the editors.
fn with_first<
    U: GroupRun<Record> + Send + Sync,
    N0: GroupRun<CentreRecord> + Send + Sync,
    N1: GroupRun<CentreRecord> + Send + Sync,
    N2: GroupRun<CentreRecord> + Send + Sync,
    N3: GroupRun<CentreRecord> + Send + Sync,
    D: Disk + Drop + Send,
    H: Wait + Drop + Send + Sync,
    O: Door + Log + Drop + Send,
    K: Clock + Sync,
    E: Door + Log + Drop + Send,
    B0: RowStart<CallerStand<0, N0, D, O>> + Send,
    B1: RowStart<CallerStand<1, N1, D, O>> + Send,
    B2: RowStart<CallerStand<2, N2, D, O>> + Send,
    B3: RowStart<CallerStand<3, N3, D, O>> + Send,
    BE: RowStart<EditorStand<U, D, E>> + Send,
    R: Wait + Threads + Sync,
>(
    rt: &R,
    udc: &Live<UdcRules, D, U, H>,
    clock: &K,
    signals: &Signals,
    first_centre: &Option<Box<Live<IrcRules<0>, D, N0, H>>>,
    first: &mut CallersRow<0, N0, D, O, B0>,
    first_carrier: &mut Option<CentreCarrier<0, U, N0, D>>,
    second_centre: &Option<Box<Live<IrcRules<1>, D, N1, H>>>,
    second: &mut CallersRow<1, N1, D, O, B1>,
    second_carrier: &mut Option<CentreCarrier<1, U, N1, D>>,
    third_centre: &Option<Box<Live<IrcRules<2>, D, N2, H>>>,
    third: &mut CallersRow<2, N2, D, O, B2>,
    third_carrier: &mut Option<CentreCarrier<2, U, N2, D>>,
    fourth_centre: &Option<Box<Live<IrcRules<3>, D, N3, H>>>,
    fourth: &mut CallersRow<3, N3, D, O, B3>,
    fourth_carrier: &mut Option<CentreCarrier<3, U, N3, D>>,
    editors: &mut EditorsRow<U, D, E, BE>,
)
where
    O::Line: Send,
    E::Line: Send,
    requires shown { (K.moment clock.now ≡ B0.shown) × (K.moment clock.now ≡ B1.shown)
        × (K.moment clock.now ≡ B2.shown) × (K.moment clock.now ≡ B3.shown) }
{
    with_first_carrier(
        rt,
        udc,
        clock,
        signals,
        || -> ()
            requires { IsSync R.row × IsSync H.row × (K.moment clock.now ≡ B0.shown) }
        { serve_if_there(rt, first_centre, clock, signals, first) },
        first_centre,
        first_carrier,
        second_centre,
        second,
        second_carrier,
        third_centre,
        third,
        third_carrier,
        fourth_centre,
        fourth,
        fourth_carrier,
        editors,
    );
}

/// Runs the threads of all ports and carriers. The stands of each row are what its name says, and those that are returned have served
/// their doors.
fn run_rows<
    U: GroupRun<Record> + Send + Sync,
    N0: GroupRun<CentreRecord> + Send + Sync,
    N1: GroupRun<CentreRecord> + Send + Sync,
    N2: GroupRun<CentreRecord> + Send + Sync,
    N3: GroupRun<CentreRecord> + Send + Sync,
    D: Disk + Drop + Send,
    H: Wait + Drop + Send + Sync,
    O: Door + Log + Drop + Send,
    E: Door + Log + Drop + Send,
    K: Clock + Sync,
    B0: RowStart<CallerStand<0, N0, D, O>> + Send,
    B1: RowStart<CallerStand<1, N1, D, O>> + Send,
    B2: RowStart<CallerStand<2, N2, D, O>> + Send,
    B3: RowStart<CallerStand<3, N3, D, O>> + Send,
    BE: RowStart<EditorStand<U, D, E>> + Send,
    R: Wait + Threads + Sync,
>(
    rt: &R,
    udc: &Live<UdcRules, D, U, H>,
    centres: &Lives<N0, N1, N2, N3, D, H>,
    clock: &K,
    signals: &Signals,
    ports: AllPorts<U, N0, N1, N2, N3, D, O, E>,
    carriers: &mut AllCarriers<U, N0, N1, N2, N3, D>,
) -> AllPorts<U, N0, N1, N2, N3, D, O, E>
where
    O::Line: Send,
    E::Line: Send,
    requires first_start { (ports.first.items ≡ B0.stands) × (K.moment clock.now ≡ B0.shown) }
    requires second_start { (ports.second.items ≡ B1.stands) × (K.moment clock.now ≡ B1.shown) }
    requires third_start { (ports.third.items ≡ B2.stands) × (K.moment clock.now ≡ B2.shown) }
    requires fourth_start { (ports.fourth.items ≡ B3.stands) × (K.moment clock.now ≡ B3.shown) }
    requires editors_start { ports.editors.items ≡ BE.stands }

    // The counts of the doors are not at their end.
    requires first_room { All (λ s. O.accepted s.door.value < MAX_ACCEPTED) ports.first.items }
    requires second_room { All (λ s. O.accepted s.door.value < MAX_ACCEPTED) ports.second.items }
    requires third_room { All (λ s. O.accepted s.door.value < MAX_ACCEPTED) ports.third.items }
    requires fourth_room { All (λ s. O.accepted s.door.value < MAX_ACCEPTED) ports.fourth.items }
    requires editors_room { All (λ s. E.accepted s.door.value < MAX_ACCEPTED) ports.editors.items }

    // A centre that is not there has no stands.
    requires first_there { centres.now.first ≡ None → B0.stands ≡ [] }
    requires second_there { centres.now.second ≡ None → B1.stands ≡ [] }
    requires third_there { centres.now.third ≡ None → B2.stands ≡ [] }
    requires fourth_there { centres.now.fourth ≡ None → B3.stands ≡ [] }

    // Each row has served its doors.
    ensures first { EachBecomes (λ old new. HasServedCalls ⟦<IrcRules<0> as Rules>⟧ N0.limits N0.opening
        B0.shown (line_of ⟦<O::Line as Source>⟧ ⟦<O::Line as Sink>⟧) old.calls
        old.port.pass (door_of O.lines O.accepted O.finished O.faults old.door.value)
        new.port.pass (door_of O.lines O.accepted O.finished O.faults new.door.value) new.report.value)
        B0.stands result.first.items }
    ensures second { EachBecomes (λ old new. HasServedCalls ⟦<IrcRules<1> as Rules>⟧ N1.limits N1.opening
        B1.shown (line_of ⟦<O::Line as Source>⟧ ⟦<O::Line as Sink>⟧) old.calls
        old.port.pass (door_of O.lines O.accepted O.finished O.faults old.door.value)
        new.port.pass (door_of O.lines O.accepted O.finished O.faults new.door.value) new.report.value)
        B1.stands result.second.items }
    ensures third { EachBecomes (λ old new. HasServedCalls ⟦<IrcRules<2> as Rules>⟧ N2.limits N2.opening
        B2.shown (line_of ⟦<O::Line as Source>⟧ ⟦<O::Line as Sink>⟧) old.calls
        old.port.pass (door_of O.lines O.accepted O.finished O.faults old.door.value)
        new.port.pass (door_of O.lines O.accepted O.finished O.faults new.door.value) new.report.value)
        B2.stands result.third.items }
    ensures fourth { EachBecomes (λ old new. HasServedCalls ⟦<IrcRules<3> as Rules>⟧ N3.limits N3.opening
        B3.shown (line_of ⟦<O::Line as Source>⟧ ⟦<O::Line as Sink>⟧) old.calls
        old.port.pass (door_of O.lines O.accepted O.finished O.faults old.door.value)
        new.port.pass (door_of O.lines O.accepted O.finished O.faults new.door.value) new.report.value)
        B3.stands result.fourth.items }
    ensures editors { EachBecomes (λ old new. HasServedSessions ⟦<UdcRules as Rules>⟧ U.limits U.opening
        (line_of ⟦<E::Line as Source>⟧ ⟦<E::Line as Sink>⟧) old.calls
        old.port.pass (door_of E.lines E.accepted E.finished E.faults old.door.value)
        new.port.pass (door_of E.lines E.accepted E.finished E.faults new.door.value) new.report.value)
        BE.stands result.editors.items }
{
    let AllPorts {
        first,
        second,
        third,
        fourth,
        editors,
    } = ports;
    let mut first = CallersRow::<0, N0, D, O, B0>::new(first);
    let mut second = CallersRow::<1, N1, D, O, B1>::new(second);
    let mut third = CallersRow::<2, N2, D, O, B2>::new(third);
    let mut fourth = CallersRow::<3, N3, D, O, B3>::new(fourth);
    let mut editors = EditorsRow::<U, D, E, BE>::new(editors);
    with_first(
        rt,
        udc,
        clock,
        signals,
        &centres.first,
        &mut first,
        &mut carriers.first,
        &centres.second,
        &mut second,
        &mut carriers.second,
        &centres.third,
        &mut third,
        &mut carriers.third,
        &centres.fourth,
        &mut fourth,
        &mut carriers.fourth,
        &mut editors,
    );
    AllPorts {
        first: first.into_served(rt, &centres.first, clock, signals),
        second: second.into_served(rt, &centres.second, clock, signals),
        third: third.into_served(rt, &centres.third, clock, signals),
        fourth: fourth.into_served(rt, &centres.fourth, clock, signals),
        editors: editors.into_served(rt, udc, signals),
    }
}

/// Runs the threads of a network, and waits for all.
pub(crate) fn run_network<
    U: GroupRun<Record> + Send + Sync,
    N0: GroupRun<CentreRecord> + Send + Sync,
    N1: GroupRun<CentreRecord> + Send + Sync,
    N2: GroupRun<CentreRecord> + Send + Sync,
    N3: GroupRun<CentreRecord> + Send + Sync,
    D: Disk + Drop + Send,
    H: Wait + Drop + Send + Sync,
    O: Door + Log + Drop + Send,
    E: Door + Log + Drop + Send,
    K: Clock + Sync,
    R: Wait + Threads + Sync,
>(
    rt: &R,
    alloc: Global,
    clock: &K,
    signals: &Signals,
    network: &mut OpenNetwork<U, N0, N1, N2, N3, D, O, E, H>,
)
where
    O::Line: Send,
    E::Line: Send,
    requires first_room { All (λ s. O.accepted s.door.value < MAX_ACCEPTED) network.old.ports.first.items }
    requires second_room { All (λ s. O.accepted s.door.value < MAX_ACCEPTED) network.old.ports.second.items }
    requires third_room { All (λ s. O.accepted s.door.value < MAX_ACCEPTED) network.old.ports.third.items }
    requires fourth_room { All (λ s. O.accepted s.door.value < MAX_ACCEPTED) network.old.ports.fourth.items }
    requires editors_room { All (λ s. E.accepted s.door.value < MAX_ACCEPTED)
        network.old.ports.editors.items }

    // A centre that is not there has no stands.
    requires first_there { network.old.centres.first ≡ None → network.old.ports.first.items ≡ [] }
    requires second_there { network.old.centres.second ≡ None → network.old.ports.second.items ≡ [] }
    requires third_there { network.old.centres.third ≡ None → network.old.ports.third.items ≡ [] }
    requires fourth_there { network.old.centres.fourth ≡ None → network.old.ports.fourth.items ≡ [] }

    // Each row has served its doors.
    ensures first { EachBecomes (λ old new. HasServedCalls ⟦<IrcRules<0> as Rules>⟧ N0.limits N0.opening
        (K.moment clock.now) (line_of ⟦<O::Line as Source>⟧ ⟦<O::Line as Sink>⟧) old.calls
        old.port.pass (door_of O.lines O.accepted O.finished O.faults old.door.value)
        new.port.pass (door_of O.lines O.accepted O.finished O.faults new.door.value) new.report.value)
        network.old.ports.first.items network.new.ports.first.items }
    ensures second { EachBecomes (λ old new. HasServedCalls ⟦<IrcRules<1> as Rules>⟧ N1.limits N1.opening
        (K.moment clock.now) (line_of ⟦<O::Line as Source>⟧ ⟦<O::Line as Sink>⟧) old.calls
        old.port.pass (door_of O.lines O.accepted O.finished O.faults old.door.value)
        new.port.pass (door_of O.lines O.accepted O.finished O.faults new.door.value) new.report.value)
        network.old.ports.second.items network.new.ports.second.items }
    ensures third { EachBecomes (λ old new. HasServedCalls ⟦<IrcRules<2> as Rules>⟧ N2.limits N2.opening
        (K.moment clock.now) (line_of ⟦<O::Line as Source>⟧ ⟦<O::Line as Sink>⟧) old.calls
        old.port.pass (door_of O.lines O.accepted O.finished O.faults old.door.value)
        new.port.pass (door_of O.lines O.accepted O.finished O.faults new.door.value) new.report.value)
        network.old.ports.third.items network.new.ports.third.items }
    ensures fourth { EachBecomes (λ old new. HasServedCalls ⟦<IrcRules<3> as Rules>⟧ N3.limits N3.opening
        (K.moment clock.now) (line_of ⟦<O::Line as Source>⟧ ⟦<O::Line as Sink>⟧) old.calls
        old.port.pass (door_of O.lines O.accepted O.finished O.faults old.door.value)
        new.port.pass (door_of O.lines O.accepted O.finished O.faults new.door.value) new.report.value)
        network.old.ports.fourth.items network.new.ports.fourth.items }
    ensures editors { EachBecomes (λ old new. HasServedSessions ⟦<UdcRules as Rules>⟧ U.limits U.opening
        (line_of ⟦<E::Line as Source>⟧ ⟦<E::Line as Sink>⟧) old.calls
        old.port.pass (door_of E.lines E.accepted E.finished E.faults old.door.value)
        new.port.pass (door_of E.lines E.accepted E.finished E.faults new.door.value) new.report.value)
        network.old.ports.editors.items network.new.ports.editors.items }

    // No node comes or goes, and the counts of passes stay.
    ensures first_live { count_of network.new.centres.first ≡ count_of network.old.centres.first }
    ensures second_live { count_of network.new.centres.second ≡ count_of network.old.centres.second }
    ensures third_live { count_of network.new.centres.third ≡ count_of network.old.centres.third }
    ensures fourth_live { count_of network.new.centres.fourth ≡ count_of network.old.centres.fourth }
    ensures passes { (network.new.update_passes ≡ network.old.update_passes)
        × (network.new.centre_passes ≡ network.old.centre_passes) }
{
    let OpenNetwork {
        update,
        centres,
        ports,
        carriers,
        ..
    } = network;
    let begun = mem::replace(ports, AllPorts::none(alloc));
    *ports = run_rows::<U, N0, N1, N2, N3, D, H, O, E, K, Brand, Brand, Brand, Brand, Brand, R>(
        rt, &**update, centres, clock, signals, begun, carriers,
    );
}
