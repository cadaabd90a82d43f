//! What tells the size of a store in a folder.
ghost use Rattle.std.specs.Prelude.{◌≡◌, true, Bool, ℕ, List, Option, IfOk};
ghost use Rattle.std.specs.Option.{option_map};

use crate::file_lens::FileLens;
use crate::folder::FolderFault;
use lc_record::Geometry;

/// What tells the size of a store in a folder: the file that says it, and how long the other files are. Nothing is said
/// of one that is not `honest`.
pub trait SizeSource {
    /// The bytes of the file that says the size, where there is one.
    ghost stated: { Self → Option (List ℕ) };

    /// How long each log is, where there is one.
    ghost logs: { Self → List (Option ℕ) };

    /// How long each segment is, where there is one.
    ghost segments: { Self → List (Option ℕ) };

    /// It keeps to this.
    ghost honest: { Self → Bool };

    /// The bytes of the file that says the size, where there is one.
    fn stated(&self) -> Result<Option<Vec<u8>>, FolderFault>
        ensures { IfOk result (λ found. honest self.now ≡ true
            → option_map (λ bytes. bytes.items) found ≡ stated self.now) };

    /// How long the other files are.
    fn file_lens(&self) -> Result<FileLens, FolderFault>
        ensures logs { IfOk result (λ lens. honest self.now ≡ true → lens.logs ≡ logs self.now) }
        ensures segments { IfOk result (λ lens. honest self.now ≡ true → lens.segments ≡ segments self.now) };

    /// Notes that the file of the size says no size, and answers the fault that this is.
    fn says_no_size(&self) -> FolderFault;

    /// Notes that the file of the size says this one, which is not the one that was asked for.
    fn says_other_size(&self, stated: &Geometry);

    /// Notes that the size is only as found, since no file says it.
    fn says_nothing(&self);
}
