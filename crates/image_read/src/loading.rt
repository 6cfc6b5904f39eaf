//! What is to be read of a volume that is loaded first.
ghost use Rattle.std.specs.Prelude.{◌≡◌, ◌*◌, ◌^◌, ◌<◌, Result, IfSome};
ghost use Rattle.host_base.specs.Answers.{GivesOrFails};
ghost use Rattle.disk_model.specs.Content.{Content};
ghost use Rattle.block_view.specs.Views.{AsksView};
ghost use Rattle.volume_check.specs.volume_model.Volumes.{Volume};
ghost use Rattle.image_open.specs.volume_map.Maps.{IsMapOf, volume_in};
ghost use Rattle.image_open.specs.Errors.{scan_cause};
ghost use Rattle.image_open.specs.declared.refusal.Refusal.{Refusal as the_refusal};
ghost use Rattle.image_read.specs.Checks.{loaded_in};

use crate::checking::volume_on;
use block_view::View;
use image_open::{Geometry, MountFault, VolumeMap, VolumeReader};
use std::alloc::Global;

/// Something that is read of a loaded volume.
pub trait MapReader {
    /// What is answered.
    type Answer;

    /// What contracts say of an answer.
    ghost Shown: { Type 0 };

    ghost shown: { Self.Answer → Self.Shown };

    /// What is meant of a volume of a content, or what refuses it.
    ghost meant: { Self → Content → Volume → Result Self.Shown the_refusal };

    /// Reads it of the volume that was loaded of a view. The view is only read.
    fn read<V: View>(
        &self,
        alloc: Global,
        view: &mut V,
        map: &VolumeMap,
    ) -> Result<Self::Answer, MountFault>
        requires parts { IfSome (V.content view.old) (λ c. IsMapOf c map.now) }
        ensures answer { IfSome (V.content view.old) (λ c. GivesOrFails Self.shown scan_cause result (meant self.now c (volume_in map.now))) }
        ensures kept { AsksView V.content V.kept V.faults scan_cause view.old view.new result };
}

// What is read of a volume of this geometry and so many clusters.
fn load_and_read<V: View, R: MapReader>(
    alloc: Global,
    view: &mut V,
    geometry: &Geometry,
    total: u64,
    reader: &R,
) -> Result<R::Answer, MountFault>
    requires place { geometry.now.mft * geometry.now.per_cluster < 2 ^ 62 }
    ensures answer { IfSome (V.content view.old) (λ c. GivesOrFails R.shown scan_cause result (loaded_in (R.meant reader.now) c geometry.now total)) }
    ensures kept { AsksView V.content V.kept V.faults scan_cause view.old view.new result }
{
    let map = volume_on(alloc, view, geometry, total)?;
    reader.read(alloc, view, &map)
}

/// A reader of loaded volumes as one of opened ones, which loads the volume first.
#[derive(Drop)]
pub struct Loads<'a, R: MapReader> {
    pub reader: &'a R,
}

impl<'a, R: MapReader> VolumeReader for Loads<'a, R> {
    type Answer = R::Answer;

    ghost Shown = { R.Shown };

    ghost shown = { R.shown };

    ghost meant = { λ loads. loaded_in (R.meant loads.reader.now) };

    fn read<V: View>(
        &self,
        alloc: Global,
        view: &mut V,
        geometry: &Geometry,
        total: u64,
    ) -> Result<R::Answer, MountFault> {
        load_and_read(alloc, view, geometry, total, self.reader)
    }
}
