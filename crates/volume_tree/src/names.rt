//! The names of a volume's files.
ghost use Rattle.std.specs.Prelude.{◌≡◌, IfOk};
ghost use Rattle.volume_tree.specs.Named.{AreNamesOf};

use host_base::Memory;
use record_rules::{Climber, Ways, counts_in, links_in};
use state_model::LinkList;
use std::alloc::Global;
use volume_map::{FileRec, VolumeMap};

/// The names of a volume's files, and what they say of the ways up from these.
#[derive(Drop)]
pub struct Names {
    /// The names of each file, by its number.
    pub links: Vec<LinkList>,
    /// How many names stand in each file, by its number.
    pub counts: Vec<usize>,
    /// The ways up from the files.
    pub ways: Ways,
}

impl Names {
    /// The names of these records: the record in use of each number, if there is one. The error is
    /// want of memory. It takes time and memory linear in the records.
    pub fn new(alloc: Global, records: &[Option<FileRec>]) -> Result<Self, Memory>
        ensures value { IfOk result (λ names. AreNamesOf names records.now) }
    {
        let links = links_in(alloc, records)?;
        let counts = counts_in(alloc, records, &links)?;
        let ways = Ways::new(alloc, records, &links)?;
        Ok(Names {
            links,
            counts,
            ways,
        })
    }
}

/// A loaded volume, with the names of its files.
#[derive(Clone, Copy)]
pub struct NamedVolume<'a> {
    /// The volume.
    pub map: &'a VolumeMap,
    /// The names of its files.
    pub names: &'a Names,
    pub ghost named: { AreNamesOf names.now map.now.files.items },
}

impl<'a> NamedVolume<'a> {
    /// This loaded volume, with these names of its files. It takes constant time.
    pub fn new(map: &'a VolumeMap, names: &'a Names) -> Self
        requires { AreNamesOf names.now map.now.files.items }
        ensures map { result.map.now ≡ map.now }
    {
        NamedVolume { map, names }
    }

    /// The ways up from the volume's files. It takes constant time.
    pub fn climber(&self) -> Climber<'a>
        ensures records { result.records.now ≡ self.now.map.now.files.items }
    {
        Climber::new(&self.map.files, &self.names.ways)
    }
}
