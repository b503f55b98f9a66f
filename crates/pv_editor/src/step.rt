use crate::text::Text;
use pv_account::AccountNo;
use pv_edits::EditWish;

/// The step of an editor's line.
#[derive(Clone, Copy, Debug, PartialEq, Eq)]
pub enum EditStep {
    /// This reply.
    Say(Text),
    /// A request to the Update Centre, whose verdict is the reply.
    Ask {
        /// Who asks.
        editor: AccountNo,
        /// The number of the edit among the editor's.
        q: u32,
        /// What is asked for.
        wish: EditWish,
    },
    /// A search for what callers keyed into the editor's response frames.
    Responses {
        /// Whose pages.
        editor: AccountNo,
        /// The first place in the edit list that counts.
        from: u64,
    },
    /// The end of the session.
    Close,
}
