use pv_account::{AccountNo, PASSWORD_BYTES};
use pv_keys::Command;
use pv_post::Filled;

/// What a caller has keyed, once it is whole.
#[derive(Clone, Copy, Debug, PartialEq, Eq)]
pub enum Entry {
    /// The ten digits of an account.
    Account(AccountNo),
    /// The four characters of a password.
    Password([u8; PASSWORD_BYTES]),
    /// The keys of a command.
    Command(Command),
    /// What fills a field of a frame, which the key `#` ends.
    Field(Filled),
    /// That what was filled in is sent.
    Send,
    /// That it is not sent.
    Keep,
    /// That the letter of this number is deleted.
    Delete(u64),
}
