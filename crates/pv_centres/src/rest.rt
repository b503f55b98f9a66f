//! What is carried between the nodes of a network once their threads have ended.
ghost use Rattle.std.specs.Prelude.{◌≡◌, List, None, true, IfSome};
ghost use Rattle.pv_edits.specs.Taken.{IsCentre};
ghost use Rattle.pv_edits.specs.declared.record.Record.{Record};
ghost use Rattle.pv_node.specs.Standing.{StandsFor};
ghost use Rattle.pv_centres.specs.Parts.{IfThere};
ghost use Rattle.pv_centres.specs.Rest.{AddsRecords, AddsRun, TakesItems, AppliesFrom, AreCarried};

use crate::ends::Ends;
use crate::nodes::Nodes;
use pv_closing::{RestEnd, apply_records, take_items, what_is_lacked_is_to_be_stored};
use pv_irc::IrcRules;
use pv_node::{Node, Rules};
use pv_outside::Disk;
use pv_udc::UdcRules;

/// The Update Centre takes up the items of a centre, if the network has it.
fn take_from<const C: u8, D: Disk + Drop>(
    update: &mut Node<UdcRules, D>,
    centre: &Option<Node<IrcRules<C>, D>>,
    ends: &mut Ends<D>,
)
    requires { IsCentre C }
    ensures records { AddsRecords ⟦<UdcRules as Rules>⟧ D.Reports update.old update.new }
    ensures taken { ends.new.disk ≡ None
        → IfSome centre.now (λ n. TakesItems ends.new.no_room C n.state.items update.new) }
    ensures door { ends.new.door ≡ ends.old.door }
    ensures disk { ends.new.disk ≡ None → ends.old.disk ≡ None }

    // Nothing is in hand then, and what was noted stays so.
    ensures rests { ends.new.disk ≡ None → IfSome centre.now (λ n. update.new.hand ≡ None) }
    ensures kept { ends.new.disk ≡ None → update.old.hand ≡ None → update.new.hand ≡ None }
    ensures noted { ends.old.no_room ≡ true → ends.new.no_room ≡ true }
    ensures memory { ends.new.memory ≡ ends.old.memory }

    // What was brought goes on as a run.
    ensures runs { ends.new.disk ≡ None → AddsRun ⟦<UdcRules as Rules>⟧ D.Reports update.old update.new }
{
    what_is_lacked_is_to_be_stored();
    if let Some(centre) = centre {
        ends.add_rest(take_items(update, centre));
    }
}

/// A centre applies the records of the edit list, if the network has it.
fn apply_to<const C: u8, D: Disk + Drop>(
    update: &Node<UdcRules, D>,
    centre: &mut Option<Node<IrcRules<C>, D>>,
    ends: &mut Ends<D>,
)
    ensures records { IfThere (AddsRecords ⟦<IrcRules<C> as Rules>⟧ D.Reports) centre.old centre.new }
    ensures applied { ends.new.disk ≡ None → IfThere (AppliesFrom ⟦<IrcRules<C> as Rules>⟧ D.Reports
        ends.new.no_room update.now.state.records) centre.old centre.new }
    ensures door { ends.new.door ≡ ends.old.door }
    ensures disk { ends.new.disk ≡ None → ends.old.disk ≡ None }

    // Nothing is in hand then, and what was noted stays so.
    ensures rests { ends.new.disk ≡ None → IfSome centre.new (λ n. n.hand ≡ None) }
    ensures noted { ends.old.no_room ≡ true → ends.new.no_room ≡ true }
    ensures memory { ends.new.memory ≡ ends.old.memory }
    ensures runs { ends.new.disk ≡ None
        → IfThere (AddsRun ⟦<IrcRules<C> as Rules>⟧ D.Reports) centre.old centre.new }
{
    what_is_lacked_is_to_be_stored();
    if let Some(centre) = centre {
        ends.add_rest(apply_records(update, centre));
    }
}

/// The Update Centre takes up the items of all centres, one centre after the other.
fn bring_up<D: Disk + Drop>(
    update: &mut Node<UdcRules, D>,
    first: &Option<Node<IrcRules<0>, D>>,
    second: &Option<Node<IrcRules<1>, D>>,
    third: &Option<Node<IrcRules<2>, D>>,
    fourth: &Option<Node<IrcRules<3>, D>>,
    ends: &mut Ends<D>,
)
    ensures records { AddsRecords ⟦<UdcRules as Rules>⟧ D.Reports update.old update.new }
    ensures first { ends.new.disk ≡ None → (edits : List Record)
        → StandsFor ⟦<UdcRules as Rules>⟧ D.Reports update.old edits
        → IfSome first.now (λ n. TakesItems ends.new.no_room 0 n.state.items update.new) }
    ensures second { ends.new.disk ≡ None → (edits : List Record)
        → StandsFor ⟦<UdcRules as Rules>⟧ D.Reports update.old edits
        → IfSome second.now (λ n. TakesItems ends.new.no_room 1 n.state.items update.new) }
    ensures third { ends.new.disk ≡ None → (edits : List Record)
        → StandsFor ⟦<UdcRules as Rules>⟧ D.Reports update.old edits
        → IfSome third.now (λ n. TakesItems ends.new.no_room 2 n.state.items update.new) }
    ensures fourth { ends.new.disk ≡ None → IfSome fourth.now
        (λ n. TakesItems ends.new.no_room 3 n.state.items update.new) }

    // No door has a part in it, and the failure of a disk stays.
    ensures door { ends.new.door ≡ ends.old.door }
    ensures disk { ends.new.disk ≡ None → ends.old.disk ≡ None }
    ensures noted { ends.old.no_room ≡ true → ends.new.no_room ≡ true }
    ensures memory { ends.new.memory ≡ ends.old.memory }
    ensures rests { ends.new.disk ≡ None → IfSome first.now (λ n. update.new.hand ≡ None) }

    // What was brought goes on as a run.
    ensures runs { ends.new.disk ≡ None → AddsRun ⟦<UdcRules as Rules>⟧ D.Reports update.old update.new }
{
    take_from(update, first, ends);
    take_from(update, second, ends);
    take_from(update, third, ends);
    take_from(update, fourth, ends);
}

/// All centres apply the records of the edit list.
fn bring_down<D: Disk + Drop>(
    update: &Node<UdcRules, D>,
    first: &mut Option<Node<IrcRules<0>, D>>,
    second: &mut Option<Node<IrcRules<1>, D>>,
    third: &mut Option<Node<IrcRules<2>, D>>,
    fourth: &mut Option<Node<IrcRules<3>, D>>,
    ends: &mut Ends<D>,
)
    ensures first { IfThere (AddsRecords ⟦<IrcRules<0> as Rules>⟧ D.Reports) first.old first.new }
    ensures second { IfThere (AddsRecords ⟦<IrcRules<1> as Rules>⟧ D.Reports) second.old second.new }
    ensures third { IfThere (AddsRecords ⟦<IrcRules<2> as Rules>⟧ D.Reports) third.old third.new }
    ensures fourth { IfThere (AddsRecords ⟦<IrcRules<3> as Rules>⟧ D.Reports) fourth.old fourth.new }
    ensures first_applies { ends.new.disk ≡ None → IfThere (AppliesFrom ⟦<IrcRules<0> as Rules>⟧ D.Reports
        ends.new.no_room update.now.state.records) first.old first.new }

    // The later centres have applied the edit list, too.
    ensures second_applies { ends.new.disk ≡ None → IfThere (AppliesFrom ⟦<IrcRules<1> as Rules>⟧ D.Reports
        ends.new.no_room update.now.state.records) second.old second.new }
    ensures third_applies { ends.new.disk ≡ None → IfThere (AppliesFrom ⟦<IrcRules<2> as Rules>⟧ D.Reports
        ends.new.no_room update.now.state.records) third.old third.new }
    ensures fourth_applies { ends.new.disk ≡ None → IfThere (AppliesFrom ⟦<IrcRules<3> as Rules>⟧ D.Reports
        ends.new.no_room update.now.state.records) fourth.old fourth.new }
    ensures door { ends.new.door ≡ ends.old.door }
    ensures disk { ends.new.disk ≡ None → ends.old.disk ≡ None }

    // Nothing is in hand then, and what was noted stays so.
    ensures rests { ends.new.disk ≡ None → IfSome first.new (λ n. n.hand ≡ None)
        × IfSome second.new (λ n. n.hand ≡ None)
        × IfSome third.new (λ n. n.hand ≡ None) × IfSome fourth.new (λ n. n.hand ≡ None) }
    ensures noted { ends.old.no_room ≡ true → ends.new.no_room ≡ true }
    ensures memory { ends.new.memory ≡ ends.old.memory }

    // What was brought goes on as a run.
    ensures first_runs { ends.new.disk ≡ None → IfThere (AddsRun ⟦<IrcRules<0> as Rules>⟧ D.Reports) first.old
        first.new }
    ensures second_runs { ends.new.disk ≡ None → IfThere (AddsRun ⟦<IrcRules<1> as Rules>⟧ D.Reports)
        second.old second.new }
    ensures third_runs { ends.new.disk ≡ None → IfThere (AddsRun ⟦<IrcRules<2> as Rules>⟧ D.Reports) third.old
        third.new }
    ensures fourth_runs { ends.new.disk ≡ None → IfThere (AddsRun ⟦<IrcRules<3> as Rules>⟧ D.Reports)
        fourth.old fourth.new }
{
    apply_to(update, first, ends);
    apply_to(update, second, ends);
    apply_to(update, third, ends);
    apply_to(update, fourth, ends);
}

/// Brings the Update Centre the items that it has not taken up, centre by centre, and then each centre the records that it
/// has not applied. A node that is full, or whose disk fails, is brought no more.
pub fn bring_rest<D: Disk + Drop>(nodes: &mut Nodes<D>, ends: &mut Ends<D>)
    ensures update { AddsRecords ⟦<UdcRules as Rules>⟧ D.Reports nodes.old.update nodes.new.update }
    ensures first { IfThere (AddsRecords ⟦<IrcRules<0> as Rules>⟧ D.Reports) nodes.old.first nodes.new.first }
    ensures second { IfThere (AddsRecords ⟦<IrcRules<1> as Rules>⟧ D.Reports) nodes.old.second
        nodes.new.second }
    ensures third { IfThere (AddsRecords ⟦<IrcRules<2> as Rules>⟧ D.Reports) nodes.old.third nodes.new.third }
    ensures fourth { IfThere (AddsRecords ⟦<IrcRules<3> as Rules>⟧ D.Reports) nodes.old.fourth
        nodes.new.fourth }

    // If no disk has failed, all is carried between the Update Centre and each centre, as far as there is room.
    ensures first_carried { ends.new.disk ≡ None → IfThere
        (AreCarried ⟦<UdcRules as Rules>⟧ ⟦<IrcRules<0> as Rules>⟧ D.Reports
        ends.new.no_room 0 nodes.old.update nodes.new.update) nodes.old.first nodes.new.first }
    ensures second_carried { ends.new.disk ≡ None → IfThere
        (AreCarried ⟦<UdcRules as Rules>⟧ ⟦<IrcRules<1> as Rules>⟧ D.Reports
        ends.new.no_room 1 nodes.old.update nodes.new.update) nodes.old.second nodes.new.second }
    ensures third_carried { ends.new.disk ≡ None → IfThere
        (AreCarried ⟦<UdcRules as Rules>⟧ ⟦<IrcRules<2> as Rules>⟧ D.Reports
        ends.new.no_room 2 nodes.old.update nodes.new.update) nodes.old.third nodes.new.third }
    ensures fourth_carried { ends.new.disk ≡ None → IfThere
        (AreCarried ⟦<UdcRules as Rules>⟧ ⟦<IrcRules<3> as Rules>⟧ D.Reports
        ends.new.no_room 3 nodes.old.update nodes.new.update) nodes.old.fourth nodes.new.fourth }
    ensures door { ends.new.door ≡ ends.old.door }

    // Nothing is in hand then, if there is a centre. What was met stays.
    ensures rests { ends.new.disk ≡ None → IfSome nodes.new.first (λ n. nodes.new.update.hand ≡ None)
        × IfSome nodes.new.first (λ n. n.hand ≡ None) × IfSome nodes.new.second (λ n. n.hand ≡ None)
        × IfSome nodes.new.third (λ n. n.hand ≡ None) × IfSome nodes.new.fourth (λ n. n.hand ≡ None) }
    ensures disk { ends.new.disk ≡ None → ends.old.disk ≡ None }
    ensures noted { ends.old.no_room ≡ true → ends.new.no_room ≡ true }
    ensures memory { ends.new.memory ≡ ends.old.memory }

    // What was brought goes on as a run.
    ensures runs { ends.new.disk ≡ None → AddsRun ⟦<UdcRules as Rules>⟧ D.Reports nodes.old.update
        nodes.new.update
        × IfThere (AddsRun ⟦<IrcRules<0> as Rules>⟧ D.Reports) nodes.old.first nodes.new.first
        × IfThere (AddsRun ⟦<IrcRules<1> as Rules>⟧ D.Reports) nodes.old.second nodes.new.second
        × IfThere (AddsRun ⟦<IrcRules<2> as Rules>⟧ D.Reports) nodes.old.third nodes.new.third
        × IfThere (AddsRun ⟦<IrcRules<3> as Rules>⟧ D.Reports) nodes.old.fourth nodes.new.fourth }
{
    let Nodes {
        update,
        first,
        second,
        third,
        fourth,
    } = nodes;
    bring_up(update, first, second, third, fourth, ends);
    bring_down(update, first, second, third, fourth, ends);
}
