ghost use Rattle.std.specs.Prelude.{◌≡◌};
ghost use Rattle.pv_account.specs.Profile.{digest_of};

use pv_page::AccountNo;
use sha2::{Digest, Sha256};

/// How many bytes a password has.
pub const PASSWORD_BYTES: usize = 4;

/// How many bytes a digest has.
pub const DIGEST_BYTES: usize = 32;

/// The SHA-256 digest of the account's ten digits and then the password.
#[tactic(auto, unfolding(crate::specs::Profile::digest_of))]
pub fn digest(number: AccountNo, password: &[u8; PASSWORD_BYTES]) -> [u8; DIGEST_BYTES]
    ensures { result ≡ digest_of number password.now }
{
    let mut hasher = Sha256::new();
    hasher.update(number.digits().as_slice());
    hasher.update(password.as_slice());
    hasher.finalize()
}
