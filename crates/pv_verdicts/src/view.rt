ghost use Rattle.std.specs.Prelude.{◌≡◌};
ghost use Rattle.pv_udc.specs.Requests.{IsRequest};
ghost use Rattle.pv_udc.specs.declared.request.UdcRequest.TheVariants.{Edit};
ghost use Rattle.pv_editor.specs.declared.replies.UdcReplyView.TheVariants.{Refused};
ghost use Rattle.pv_verdicts.specs.Views.{editor_view};
ghost use Rattle.pv_verdicts.specs.declared.view.TheConstants.{FULL, DISK, MEMORY};

use pv_editor::UdcReplyView;
use pv_edits::EditWish;
use pv_page::AccountNo;
use pv_udc::UdcReply;

/// The code of a request whose record would be one too many: it prints how many there are.
pub const FULL: u8 = 14;

/// The code of a request that met a fault of the disk.
pub const DISK: u8 = 15;

/// The code of a request that found no memory.
pub const MEMORY: u8 = 16;

/// An editor's request is within its ranges, by the types of its parts. A call states this and has no effect.
pub fn within(editor: AccountNo, _q: u32, wish: &EditWish)
    ensures { IsRequest (Edit editor _q wish.now) }
{
    let _number = editor.number();
    match wish {
        EditWish::Put { name, frame } => {
            name.within();
            frame.within();
        }
        EditWish::Drop { name } => name.within(),
        EditWish::Account { account } => account.within(),
        EditWish::Lease { root, account } => {
            let _numbers = (root.number(), account.number());
        }
    }
}

/// The reply as an editor gets it: the same to a repeated request as to a new one.
pub fn view_of(reply: UdcReply) -> UdcReplyView
    ensures { result ≡ editor_view reply }
{
    match reply {
        UdcReply::Stored(place) | UdcReply::Again(place) => UdcReplyView::Stored(place),
        UdcReply::Refused(code) => UdcReplyView::Refused(code.code, code.shown),
        UdcReply::Old(count) | UdcReply::Early(count) => UdcReplyView::Stored(count),
    }
}

/// The Update Centre has this many records, and room for no more.
pub fn full(count: u64) -> UdcReplyView
    ensures { result ≡ Refused FULL count }
{
    UdcReplyView::Refused(FULL, count)
}

/// A call of the Update Centre's disk failed.
pub fn disk_failed() -> UdcReplyView
    ensures { result ≡ Refused DISK 0 }
{
    UdcReplyView::Refused(DISK, 0)
}

/// No memory was found to publish a record.
pub fn out_of_memory() -> UdcReplyView
    ensures { result ≡ Refused MEMORY 0 }
{
    UdcReplyView::Refused(MEMORY, 0)
}
