//! Names that are one.
ghost use Rattle.std.specs.Prelude.{◌≡◌};
ghost use Rattle.state_model.specs.Rules.{same_link};

use file_tree::Link;
use record_model::is_same_reference;

/// Whether two names agree in file, directory, namespace and units (Linux-NTFS documentation,
/// "$FILE_NAME"). It takes time linear in the units.
pub fn is_same_link(a: &Link, b: &Link) -> bool
    ensures { result ≡ same_link a.now b.now }
{
    is_same_reference(a.child, b.child)
        && is_same_reference(a.parent, b.parent)
        && a.space == b.space
        && a.name.units() == b.name.units()
}
