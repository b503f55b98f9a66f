//! What a retrieval centre is asked for a caller's wish, and what his call goes on with.
//!
//! A call (`pv_session`) knows no centre: it says what it wishes to have stored, and is told what was paid. A
//! centre (`pv_irc`) knows no call: it judges requests. Whoever stands between the two needs both ways:
//!
//! - [`request_of`] is what the centre is asked for a wish.
//! - [`paid_by`] is what the call goes on with after the centre's reply.
//!
//! ```text
//! if let Some(wish) = call.wish() {
//!     let reply = centre.ask(&request_of(wish))?;
//!     call.pay(paid_by(&reply));
//! }
//! ```
#![tactic(auto)]

mod wish;

pub use wish::{paid_by, request_of};
