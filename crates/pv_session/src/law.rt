ghost use Rattle.std.specs.Prelude.{◌≡◌, ℕ, List, ◌++◌, map, flat_map, Option};
ghost use Rattle.pv_edits.specs.Sight.{View};
ghost use Rattle.pv_session.specs.declared.step.Step.{Step};
ghost use Rattle.pv_session.specs.Callers.{IsCallState};
ghost use Rattle.pv_session.specs.State.{CallState, new_call};
ghost use Rattle.pv_session.specs.Turns.{IsTurn};
ghost use Rattle.pv_session.specs.Calls.{CallEvent, Happens, AreSteps, AreStepsOfLike, AreWaiting, IsSameCaller};
ghost use Rattle.pv_session.specs.Calls.{plain_call, plain_event, sent_by};
ghost use Rattle.pv_session.specs.Entries.{mode_keys, kept_keys};

/// A law: what comes of a byte that makes no entry depends neither on what the caller may see nor
/// on the moment.
#[tactic(auto, using(crate::proofs::Laws::unseen))]
pub fn byte_without_entry_reads_no_sight()
    ensures { (call after : CallState) (byte : ℕ)
        (view other : View) (moment later : ℕ) (step : Step) →
        IsTurn call byte view moment after step → after.entries ≡ call.entries →
        IsTurn call byte other later after step }
{}

/// A law: what a caller is sent is a function of his keys, of what he may see as he keys them and
/// when, and of what his centre stores.
#[tactic(auto, using(crate::proofs::Laws::one_call))]
pub fn screens_are_a_function()
    ensures { (events : List CallEvent) (call x y : CallState) (one other : List Step) →
        AreSteps call events one x → AreSteps call events other y → (one ≡ other) × (x ≡ y) }
{}

/// A law: what he may see counts at his entries alone. Two calls that differ elsewhere have the
/// same steps.
#[tactic(auto, using(crate::proofs::Laws::like_calls))]
pub fn sights_count_at_entries()
    ensures { (events others : List CallEvent) (call after : CallState) (steps : List Step) →
        AreStepsOfLike call events others steps after → AreSteps call others steps after }
{}

/// A law: an entry is read from all bytes since the last one. Until it is whole, the keys of each
/// of them are kept, in a field as many as it has cells.
#[tactic(auto, using(crate::proofs::Waiting::all_kept))]
pub fn keys_are_kept_until_they_make_an_entry()
    ensures { (bytes : List ℕ) (call after : CallState) →
        kept_keys call.mode call.keyed ≡ call.keyed →
        AreWaiting call bytes after → (after.mode ≡ call.mode)
        × (after.keyed ≡ kept_keys call.mode (call.keyed ++ flat_map (mode_keys call.mode) bytes)) }
{}

/// A law: moments and serials change no screen. Of two calls that differ in them alone, the other
/// has steps as well, one for each step of the first, and each sends the caller the same.
#[tactic(auto, using(crate::proofs::Plain::other_calls))]
pub fn moments_and_serials_change_no_screen()
    ensures { (events others : List CallEvent) (call other after : CallState) (steps : List Step) →
        plain_call call ≡ plain_call other → map plain_event events ≡ map plain_event others →
        AreSteps call events steps after →
        (end : CallState) × (there : List Step) × AreSteps other others there end
        × (plain_call after ≡ plain_call end) × (map sent_by steps ≡ map sent_by there) }
{}

/// A law: what a call owes is its own. A charge that it owes has its serial, its line number and
/// its account, and is for the frame that is kept aside.
#[tactic(auto, using(crate::proofs::Callers::new_is, crate::proofs::Callers::call_lasts))]
pub fn a_call_owes_what_is_its_own()
    ensures begins { IsCallState new_call }
    ensures lasts { (call after : CallState) (event : CallEvent) (step : Step) →
        IsCallState call → Happens call event after step → IsCallState after }
{}

/// A law: a caller stays who he is. The serial of his call and its line number change at a reply to
/// what it owes alone, and his account stays once he has logged on.
#[tactic(auto, using(crate::proofs::Callers::same_caller))]
pub fn a_caller_stays_who_he_is()
    ensures { (call after : CallState) (event : CallEvent) (step : Step) →
        IsCallState call → Happens call event after step → IsSameCaller call event after }
{}
