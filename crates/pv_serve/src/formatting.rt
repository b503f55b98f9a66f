ghost use Rattle.std.specs.Prelude.{◌≡◌, ◌≢◌, ◌↔◌, ℕ, ◌≤◌, List, [], ◌∷◌, map, string_bytes, All, IfSome, IsSome, IsNone, IsErr, OnOk};
ghost use Rattle.pv_serve.specs.Formatting.{AskToFormat, AskNoFormat, IsEmptyJournal, NoneFell, OneRose, IsFormatEnd, IsDiskEnd};

use crate::status::ServeStatus;
use pv_account::MAX_CENTRES;
use pv_journal::format;
use pv_outside::Disk;
use pv_words::number_of;

/// What the words of `format` ask for.
#[derive(Clone, Copy, Debug)]
pub struct FormatOptions<'a> {
    /// The folder of the disks.
    pub folder: &'a str,
    /// How many centres the network has, 1 to [`MAX_CENTRES`]. There is one disk more.
    pub centres: u8,
}

/// What the words ask for, if they are `format`, a folder and a number of centres in decimal. `None` exactly when they are
/// not.
pub fn format_options(words: &[String]) -> Option<FormatOptions<'_>>
    ensures found { IfSome result (λ options.
        AskToFormat (map string_bytes words.now) options.folder.now options.centres) }
    ensures none { IsNone result ↔ AskNoFormat (map string_bytes words.now) }
{
    match words {
        [command, folder, number] => options_of(command, folder, number),
        _ => None,
    }
}

/// What these three words ask for.
fn options_of<'a>(command: &str, folder: &'a str, number: &str) -> Option<FormatOptions<'a>>
    ensures found { IfSome result (λ options.
        AskToFormat (command.now ∷ folder.entry.now ∷ number.now ∷ []) options.folder.now options.centres) }
    ensures none { IsNone result ↔ AskNoFormat (command.now ∷ folder.entry.now ∷ number.now ∷ []) }
{
    if command != "format" {
        return None;
    }
    match number_of(number.as_bytes()) {
        Some(centres) if 1 <= centres && centres <= MAX_CENTRES as u64 => Some(FormatOptions {
            folder,
            centres: centres as u8,
        }),
        _ => None,
    }
}

/// Makes each of these disks a journal without records, if the words are those of [`format_options`]. There is one disk for each
/// node: the Update Centre's first, and then one for each centre that the words ask for. It takes no memory.
///
/// It stops at the first disk that fails. Then the disks are to be formatted again.
pub fn format_all<D: Disk>(words: &[String], disks: &mut [D]) -> ServeStatus<D>
    // The words are refused exactly when they do not ask for it, and then no disk is touched.
    ensures usage { (result ≡ ServeStatus.Usage) ↔ AskNoFormat (map string_bytes words.now) }
    ensures untouched { result ≡ ServeStatus.Usage → disks.new ≡ disks.old }

    // If all was done, a crash now leaves each disk an empty journal.
    ensures formatted { result ≡ ServeStatus.Done → All (IsEmptyJournal D.Reports) disks.new }

    // It ends in no other way but that a disk failed, and then the count of one rose.
    ensures ends { IsFormatEnd result }
    ensures disk_fault { IsDiskEnd result → OneRose D.Reports disks.old disks.new }
    ensures counted { NoneFell D.Reports disks.old disks.new }

    // So if the words ask for it and no count rises, all is done.
    ensures succeeds { (folder : List ℕ) (centres : ℕ)
        → AskToFormat (map string_bytes words.now) folder centres
        → (OneRose D.Reports disks.old disks.new → ⊥) → result ≡ ServeStatus.Done }
{
    if format_options(words).is_none() {
        return ServeStatus::Usage;
    }
    match format_each(disks) {
        Ok(()) => ServeStatus::Done,
        Err(failure) => ServeStatus::DiskFault(failure),
    }
}

/// Makes each of these disks a journal without records. It stops at the first that fails.
fn format_each<D: Disk>(disks: &mut [D]) -> Result<(), D::Failure>
    ensures formatted { OnOk result (All (IsEmptyJournal D.Reports) disks.new) }
    ensures failed { IsErr result → OneRose D.Reports disks.old disks.new }
    ensures counted { NoneFell D.Reports disks.old disks.new }
{
    for disk in disks.iter_mut() {
        format(disk)?;
    }
    Ok(())
}
