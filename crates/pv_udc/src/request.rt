use pv_edits::EditWish;
use pv_page::AccountNo;
use pv_post::Item;

/// What the Update Centre is asked.
#[derive(Clone, Copy, Debug, PartialEq, Eq)]
pub enum UdcRequest {
    /// An editor's wish.
    Edit {
        /// Who edits.
        editor: AccountNo,
        /// The number of the edit among the editor's, from 1.
        q: u32,
        /// What is to be done.
        wish: EditWish,
    },
    /// An item that came up from a centre.
    TakeUp {
        /// The centre, at most [`pv_account::LAST_CENTRE`].
        centre: u8,
        /// The number of the item among the centre's, from 0.
        k: u64,
        /// The item.
        item: Item,
    },
}
