ghost use Rattle.std.specs.Prelude.{◌≡◌, ◌≢◌, ◌<◌, ◌≤◌, ◌+◌, List, [], ◌∷◌, ◌++◌, true, false, Ok, IfErr, IfSome, OnOk, vec_len};
ghost use Rattle.std.specs.Vec.{vec_capacity};
ghost use Rattle.pv_journal.specs.Log.{IsAtRest};
ghost use Rattle.pv_journal.specs.Journal.{HasMade, ReadsOnly};
ghost use Rattle.pv_node.specs.Standing.{Meets, DiskStands};
ghost use Rattle.pv_node.specs.Trail.{trail_records};
ghost use Rattle.pv_node.specs.Opening.{fault_of, ReadingFails, IsOutside, IsNotMemory, IsOpenFault, IsUnreadable, StopShows, FaultShows, HasRead, HasAll, ComesNext, AreAll};

use crate::fault::NodeFault;
use crate::rules::Rules;
use crate::trail::{Trail, note};
use pv_journal::{Journal, MAX_BODY, OpenFault};
use pv_outside::Disk;

/// A journal's fault, as a node's.
pub(crate) fn of_node<D: Disk>(fault: OpenFault<D>) -> NodeFault<D>
    ensures value { result ≡ fault_of fault }
    ensures no_memory { IsNotMemory result }
{
    match fault {
        OpenFault::Disk(failure) => NodeFault::Disk(failure),
        OpenFault::NotFormatted(kept) => NodeFault::NotFormatted(kept),
        OpenFault::Broken { at } => NodeFault::Broken { at },
        OpenFault::TooMany { count } => NodeFault::TooMany { count },
    }
}

/// Takes the record that is spelled so into the state, at this place, which is the next one, and notes it. It
/// returns false if there is no such record, or if it has no room.
fn absorb_spelled<R: Rules>(
    state: &mut R::State,
    bytes: &[u8],
    place: u64,
    trail: &mut Trail<R::Rec>,
) -> bool
    requires next { place ≡ R.count_of state.old }
    requires within { place < (R.limits_of state.old).records }
    requires trail { vec_len trail.old < vec_capacity trail.old }

    // The record is taken and noted, or nothing changes.
    ensures took { result ≡ true → (rec : R.Rec) × R.is_record rec × (R.spelling rec ≡ bytes.now)
        × R.fits state.old rec × (state.new ≡ R.after state.old rec place)
        × (trail_records trail.new.items ≡ trail_records trail.old.items ++ rec ∷ []) }
    ensures refused { result ≡ false → IsUnreadable ⟦<R as Rules>⟧ state.old bytes.now }
    ensures same { result ≡ false → (state.new ≡ state.old) × (trail.new ≡ trail.old) }
    ensures room { vec_capacity trail.new ≡ vec_capacity trail.old }
{
    let Some(rec) = R::decode(bytes) else {
        return false;
    };
    if !R::has_room(state, &rec) {
        return false;
    }
    R::absorb(state, &rec, place);
    note(trail, &rec);
    true
}

/// Takes the next record of the journal into the state, and notes it. It returns whether there was a further
/// one.
fn take_next<R: Rules, D: Disk>(
    state: &mut R::State,
    journal: &mut Journal<D>,
    body: &mut [u8; MAX_BODY],
    trail: &mut Trail<R::Rec>,
) -> Result<bool, NodeFault<D>>
    requires limit { journal.old.limit ≡ (R.limits_of state.old).records }
    requires trail { journal.old.count < journal.old.limit → vec_len trail.old < vec_capacity trail.old }
    requires so_far { (records : List R.Rec)
        × HasRead ⟦<R as Rules>⟧ D.Reports journal.old state.old records }

    // The next record joins those that were read, and after the last one these are all.
    ensures took { result ≡ Ok true → (records : List R.Rec)
        → HasRead ⟦<R as Rules>⟧ D.Reports journal.old state.old records
        → (rec : R.Rec) × HasRead ⟦<R as Rules>⟧ D.Reports journal.new state.new (records ++ rec ∷ [])
        × ComesNext ⟦<R as Rules>⟧ D.Reports journal.old.disk records rec
        × (trail_records trail.new.items ≡ trail_records trail.old.items ++ rec ∷ []) }
    ensures ended { result ≡ Ok false → (records : List R.Rec)
        → HasRead ⟦<R as Rules>⟧ D.Reports journal.old state.old records
        → HasAll ⟦<R as Rules>⟧ D.Reports journal.new state.new records
        × AreAll ⟦<R as Rules>⟧ D.Reports journal.old.disk records }
    ensures at_rest { result ≡ Ok false → IsAtRest journal.new }
    ensures unnoted { result ≢ Ok true → trail.new ≡ trail.old }
    ensures reads_only { ReadsOnly D.Reports 1 (ReadingFails result) journal.old.disk journal.new.disk }

    // Its one call was made.
    ensures made { OnOk result (HasMade D.Reports 1 journal.old.disk journal.new.disk) }

    // The limits stay, and what is counted is within them.
    ensures counts { result ≡ Ok true → (journal.old.count < journal.old.limit)
        × (journal.new.count ≡ journal.old.count + 1) }
    ensures goes_up { journal.old.count ≤ journal.new.count }
    ensures within { journal.new.count ≤ journal.new.limit }
    ensures limits { R.limits_of state.new ≡ R.limits_of state.old }

    // So do the journal's limit and the trail's room.
    ensures limit { journal.new.limit ≡ journal.old.limit }
    ensures room { vec_capacity trail.new ≡ vec_capacity trail.old }

    // On a disk that stands for records that have room, only an allocation or the disk can fail.
    ensures opens { IfErr result (λ fault. (records more : List R.Rec)
        → HasRead ⟦<R as Rules>⟧ D.Reports journal.old state.old records
        → DiskStands ⟦<R as Rules>⟧ D.Reports journal.old.disk (records ++ more)
        → Meets ⟦<R as Rules>⟧ (R.limits_of state.old) (records ++ more) → IsOutside fault) }
    ensures no_memory { IfErr result IsNotMemory }
    ensures known { IfErr result (IsOpenFault (R.limits_of state.old)) }
    ensures shown { IfErr result (λ fault. (records : List R.Rec)
        → HasRead ⟦<R as Rules>⟧ D.Reports journal.old state.old records
        → IfSome (D.reads journal.old.disk)
        (λ text. StopShows ⟦<R as Rules>⟧ (R.limits_of state.old) text records state.old fault)) }
{
    let number = journal.count();
    match journal.next(body) {
        Ok(Some(size)) => {
            if absorb_spelled::<R>(state, &body[..size], number, trail) {
                Ok(true)
            } else {
                Err(NodeFault::Unreadable { number })
            }
        }
        Ok(None) => Ok(false),
        Err(fault) => Err(of_node(fault)),
    }
}

/// Takes all records of the journal into the state, and notes them.
pub(crate) fn replay<R: Rules, D: Disk>(
    state: &mut R::State,
    journal: &mut Journal<D>,
    body: &mut [u8; MAX_BODY],
    trail: &mut Trail<R::Rec>,
) -> Result<(), NodeFault<D>>
    requires limit { journal.old.limit ≡ (R.limits_of state.old).records }
    requires reading { HasRead ⟦<R as Rules>⟧ D.Reports journal.old state.old [] }
    requires trail { (trail_records trail.old.items ≡ []) × (journal.old.limit ≤ vec_capacity trail.old) }

    ensures read { OnOk result (HasAll ⟦<R as Rules>⟧ D.Reports journal.new state.new
        (trail_records trail.new.items)) }
    ensures at_rest { OnOk result (IsAtRest journal.new) }
    ensures counted { OnOk result (journal.new.count ≡ R.count_of state.new) }
    ensures reads_only { ReadsOnly D.Reports (journal.new.count + 1)
        (ReadingFails result) journal.old.disk journal.new.disk }
    ensures made { OnOk result (HasMade D.Reports (journal.new.count + 1) journal.old.disk journal.new.disk) }

    // The limits stay, and what is counted is within them.
    ensures within { journal.new.count ≤ journal.new.limit }
    ensures limits { R.limits_of state.new ≡ R.limits_of state.old }
    ensures limit { journal.new.limit ≡ journal.old.limit }

    // On a disk that stands for records, these are the ones, and only an allocation or the disk can fail.
    ensures found { OnOk result ((records : List R.Rec)
        → DiskStands ⟦<R as Rules>⟧ D.Reports journal.old.disk records
        → HasAll ⟦<R as Rules>⟧ D.Reports journal.new state.new records) }
    ensures opens { IfErr result (λ fault. (records : List R.Rec)
        → DiskStands ⟦<R as Rules>⟧ D.Reports journal.old.disk records
        → Meets ⟦<R as Rules>⟧ (R.limits_of state.old) records → IsOutside fault) }
    ensures no_memory { IfErr result IsNotMemory }
    ensures known { IfErr result (IsOpenFault (R.limits_of state.old)) }
    ensures shown { IfErr result
        (λ fault. IfSome (D.reads journal.old.disk) (λ text. FaultShows ⟦<R as Rules>⟧ (R.limits_of state.old) text fault)) }
{
    while take_next::<R, D>(state, journal, body, trail)? {}
    Ok(())
}
