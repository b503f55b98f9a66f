//! Laws of a call and of a session, each the clause of a function that does nothing.
ghost use Rattle.std.specs.Prelude.{◌≡◌, ℕ, ◌+◌, List, All, Option};
ghost use Rattle.pv_outside.specs.declared.limits.Limits.{Limits};
ghost use Rattle.pv_irc.specs.declared.record.CentreRecord.{CentreRecord};
ghost use Rattle.pv_live.specs.Pass.{Standing};
ghost use Rattle.pv_session.specs.State.{CallState};
ghost use Rattle.pv_session.specs.declared.step.Step.{Step};
ghost use Rattle.pv_ports.specs.Talk.{Happening, Talked, IsTalk, stored_count, charges_of, HasRecord};
ghost use Rattle.pv_ports.specs.Lines.{AreItsCharges};
ghost use Rattle.pv_edits.specs.declared.record.Record.{Record};
ghost use Rattle.pv_editor.specs.declared.seat.EditorSeat.{EditorSeat};
ghost use Rattle.pv_ports.specs.Session.{Exchange, Traffic, IsSession, ask_count, stored_by_ask, disk_faults_by_ask};

use pv_irc::IrcRules;
use pv_node::Rules;
use pv_session::{a_call_owes_what_is_its_own, a_caller_stays_who_he_is};
use pv_udc::UdcRules;

/// A law: each charge that a call had stored is among the records that its pass has seen, and the pass has counted as
/// many stored records as the call had.
#[tactic(auto, using(crate::proofs::Laws::told_all, crate::proofs::Laws::all_kept))]
pub fn charges_are_stored_first<const C: u8>()
    ensures told { (limits : Limits) (opening : List CentreRecord) (shown : Option ℕ)
        (happened : List Happening) (start pass : Standing CentreRecord) (call : CallState) (step : Step) (talked : Talked)
        → IsTalk ⟦<IrcRules<C> as Rules>⟧ limits opening shown happened start pass call step talked
        → pass.told ≡ start.told + stored_count happened }
    ensures kept { (limits : Limits) (opening : List CentreRecord) (shown : Option ℕ)
        (happened : List Happening) (start pass : Standing CentreRecord) (call : CallState) (step : Step) (talked : Talked)
        → IsTalk ⟦<IrcRules<C> as Rules>⟧ limits opening shown happened start pass call step talked
        → All (HasRecord pass.seen) (charges_of happened) }
{}

/// A law: the charges that were stored for a call are numbered 0, 1, 2 and on, and have the one serial that was told
/// at its log-on.
pub fn charges_are_the_calls_own<const C: u8>()
    ensures { (limits : Limits) (opening : List CentreRecord) (shown : Option ℕ)
        (happened : List Happening) (start pass : Standing CentreRecord) (call : CallState) (step : Step) (talked : Talked)
        → IsTalk ⟦<IrcRules<C> as Rules>⟧ limits opening shown happened start pass call step talked
        → AreItsCharges happened }
{
    a_call_owes_what_is_its_own();
    a_caller_stays_who_he_is();
}

/// A law: the pass of a session has counted as many stored records as the session's edits, and as many of its asks
/// failed on the disk as the session has.
pub fn edits_are_counted()
    ensures told { (limits : Limits) (opening : List Record) (happened : List Exchange)
        (start pass : Standing Record) (seat : EditorSeat) (said : Traffic)
        → IsSession ⟦<UdcRules as Rules>⟧ limits opening happened start pass seat said
        → pass.told ≡ start.told + ask_count stored_by_ask happened }
    ensures failed { (limits : Limits) (opening : List Record) (happened : List Exchange)
        (start pass : Standing Record) (seat : EditorSeat) (said : Traffic)
        → IsSession ⟦<UdcRules as Rules>⟧ limits opening happened start pass seat said
        → pass.failed ≡ start.failed + ask_count disk_faults_by_ask happened }
{}
