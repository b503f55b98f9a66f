ghost use Rattle.std.specs.Prelude.{◌≡◌};
ghost use Rattle.pv_irc.specs.Deciding.{IsCentreRequest};
ghost use Rattle.pv_wishes.specs.Wishes.{request_for, paid_by};

use pv_irc::{IrcReply, IrcRequest};
use pv_post::Item;
use pv_session::{Paid, Wish};

/// What a centre is asked for a wish.
pub fn request_of(wish: Wish) -> IrcRequest
    ensures within { IsCentreRequest result }
    ensures request { result ≡ request_for wish }
{
    wish.within();
    match wish {
        Wish::LogOn(account) => IrcRequest::LogOn { account },
        Wish::Charge(line) => IrcRequest::Keep {
            item: Item::Charge(line),
        },
        Wish::Post(item) => IrcRequest::Keep { item },
        Wish::Remove(account, number) => IrcRequest::Remove { account, number },
    }
}

/// What a call goes on with after the centre's reply: the serial of a log-on, and else that the wish is stored.
pub fn paid_by(reply: &IrcReply) -> Paid
    ensures { result ≡ paid_by reply.now }
{
    match reply {
        IrcReply::Serial(serial) => Paid::Serial(*serial),
        _ => Paid::Stored,
    }
}
