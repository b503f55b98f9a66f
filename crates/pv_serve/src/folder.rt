ghost use Rattle.std.specs.Prelude.{◌≡◌, IfOk};

use std::alloc::{AllocError, Global};
use std::marker::Model;

/// The path of a folder, as a word of the command line gives it.
#[derive(Debug, Drop)]
pub struct Folder {
    path: String,
}

impl Model for Folder {
    ghost use Rattle.std.specs.Prelude.{List, ℕ, string_bytes};

    ghost Value = { List ℕ };

    ghost view = { λ folder. string_bytes folder.path };
}

impl Folder {
    /// The folder of this path.
    pub fn new(alloc: Global, path: &str) -> Result<Folder, AllocError>
        ensures { IfOk result (λ folder. folder ≡ path.now) }
    {
        Ok(Folder {
            path: String::from_str(alloc, path)?,
        })
    }

    /// Its path.
    pub fn as_str(&self) -> &str
        ensures { result.now ≡ self.now }
    {
        &self.path
    }
}
