//! What a browser is answered that makes no call.
ghost use Rattle.std.specs.Prelude.{◌≡◌};
ghost use Rattle.pv_web.specs.Replies.{status_of, shown_text};

use crate::asking::Asked;
use crate::page::PAGE;

/// What a call is answered that is no websocket.
pub const NO_CALL: &str = "A call is a websocket of version 13.\n";

/// What is said of all but the page.
pub const MISSING: &str = "Nothing is here. The terminal is at /\n";

/// What another host's page is answered.
pub const FOREIGN: &str = "Only pages of this server are answered.\n";

/// What a request is answered that cannot be read.
pub const UNREADABLE: &str = "This is no request that can be read.\n";

impl Asked {
    /// The status of the answer.
    pub(crate) fn status(self) -> u16
        ensures { result ≡ status_of self }
    {
        match self {
            Asked::Page => 200,
            Asked::Call(_) => 101,
            Asked::NoCall => 426,
            Asked::Missing => 404,
            Asked::Foreign => 403,
        }
    }

    /// What is shown. A call is shown nothing: its screens follow.
    pub(crate) fn text(self) -> &'static str
        ensures { result.now ≡ shown_text self }
    {
        match self {
            Asked::Page => PAGE,
            Asked::Call(_) => "",
            Asked::NoCall => NO_CALL,
            Asked::Missing => MISSING,
            Asked::Foreign => FOREIGN,
        }
    }
}
