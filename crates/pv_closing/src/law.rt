//! What a node lacks, in terms of its records. Each law is the clauses of a function that does nothing.
ghost use Rattle.std.specs.Prelude.{◌≡◌, ◌≤◌, ℕ, ◌+◌, List, ◌∷◌, ◌++◌, length, slice_get, Some, IsTrue};
ghost use Rattle.pv_post.specs.declared.item.Item.{Item};
ghost use Rattle.pv_edits.specs.Edits.{taken_of};
ghost use Rattle.pv_edits.specs.Record.{IsRecord};
ghost use Rattle.pv_edits.specs.declared.record.Record.{Record};
ghost use Rattle.pv_node.specs.declared.decision.Decision.TheVariants.{Store};
ghost use Rattle.pv_udc.specs.EditList.{EditList};
ghost use Rattle.pv_udc.specs.Judgement.{judge};
ghost use Rattle.pv_udc.specs.Requests.{IsRequest};
ghost use Rattle.pv_udc.specs.declared.reply.UdcReply.TheVariants.{Stored};
ghost use Rattle.pv_udc.specs.declared.request.UdcRequest.{UdcRequest};
ghost use Rattle.pv_irc.specs.Deciding.{IsCentreRequest, centre_has_room, centre_judgement};
ghost use Rattle.pv_irc.specs.History.{CentreState, centre_state_of, applied_of};
ghost use Rattle.pv_irc.specs.Record.{IsCentreRecord};
ghost use Rattle.pv_irc.specs.declared.record.CentreRecord.{CentreRecord};
ghost use Rattle.pv_irc.specs.declared.reply.IrcReply.TheVariants.{Applied};
ghost use Rattle.pv_irc.specs.declared.request.IrcRequest.{IrcRequest};
ghost use Rattle.pv_outside.specs.declared.limits.Limits.{Limits};
ghost use Rattle.pv_closing.specs.Lacking.{take_record, lacked_items, apply_record, lacked_records};

/// What the Update Centre lacks of a centre's items is one record for each further item, under its number. What a
/// centre lacks of an edit list is one record for each further place.
pub fn what_is_lacked_is_items_and_records()
    ensures items { (centre index : ℕ) (items : List Item) (list : EditList) (rec : Record)
        → slice_get (lacked_items centre items list) index ≡ Some rec
        → (item : Item) × (slice_get items (taken_of list.records centre + index) ≡ Some item)
        × (rec ≡ take_record centre (taken_of list.records centre + index) item) }
    ensures records { (index : ℕ) (edits : List Record) (state : CentreState) (rec : CentreRecord)
        → slice_get (lacked_records edits state) index ≡ Some rec
        → (edit : Record) × (slice_get edits (state.applied + index) ≡ Some edit)
        × (rec ≡ apply_record (state.applied + index) edit) }
{}

/// Once all is brought that was lacked, as many items are taken up as there are, or as many records applied.
pub fn everything_lacked_makes_the_counts_equal()
    ensures items { (centre : ℕ) (items : List Item) (list : EditList)
        → taken_of list.records centre ≤ length items
        → taken_of (list.records ++ lacked_items centre items list) centre ≡ length items }
    ensures records { (edits : List Record) (state : CentreState) (records : List CentreRecord)
        → state.applied ≡ applied_of records → applied_of records ≤ length edits
        → applied_of (records ++ lacked_records edits state) ≡ length edits }
{}

/// What is lacked is asked for, and no more: each record is one that a valid request stores after those before it. At a
/// centre it has to have room there.
pub fn what_is_lacked_is_to_be_stored()
    ensures items { (centre : ℕ) (items : List Item) (list : EditList)
        → (before after : List Record) (next : Record)
        → lacked_items centre items list ≡ before ++ next ∷ after → IsRecord next
        → (request : UdcRequest) × IsRequest request
        × (judge list.limits (list.records ++ before) request
        ≡ Store next (Stored (length (list.records ++ before)))) }
    ensures records { (centre : ℕ) (limits : Limits) (edits : List Record)
        → (records before after : List CentreRecord) (next : CentreRecord)
        → lacked_records edits (centre_state_of centre limits records) ≡ before ++ next ∷ after
        → IsCentreRecord next
        → IsTrue (centre_has_room (centre_state_of centre limits (records ++ before)) next)
        → (request : IrcRequest) × IsCentreRequest request
        × (centre_judgement (centre_state_of centre limits (records ++ before)) request
        ≡ Store next Applied) }
{}
