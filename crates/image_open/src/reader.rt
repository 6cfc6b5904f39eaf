//! What is to be read of a device, of its view or of its volume.
ghost use Rattle.std.specs.Prelude.{◌≡◌, ◌*◌, ◌^◌, ◌<◌, ℕ, Result, IfSome, IsErrOf};
ghost use Rattle.host_base.specs.Answers.{GivesOrFails};
ghost use Rattle.host_base.specs.Causes.{Rose, Counts};
ghost use Rattle.disk_model.specs.Content.{Content};
ghost use Rattle.block_view.specs.Views.{KeepsView};
ghost use Rattle.state_model.specs.declared.geometry.Geometry.{Geometry as the_geometry};
ghost use Rattle.image_open.specs.Errors.{scan_cause};
ghost use Rattle.image_open.specs.declared.refusal.Refusal.{Refusal as the_refusal};

use crate::refusal::MountFault;
use block_view::View;
use state_model::Geometry;
use std::alloc::Global;

/// Something that is read of a view of a device, as `with_view` makes it.
pub trait ViewReader {
    /// What is answered.
    type Answer;

    /// What contracts say of an answer.
    ghost Shown: { Type 0 };

    ghost shown: { Self.Answer → Self.Shown };

    /// What is meant of a content on a device of so many sectors, or what refuses it.
    ghost meant: { Self → Content → ℕ → Result Self.Shown the_refusal };

    /// Reads it of a view of a device of so many sectors of 512 bytes. The view is only read. Each
    /// reader names its cost.
    ///
    /// - [`MountFault::Refused`]: the refusal that is meant.
    /// - [`MountFault::Device`]: the view failed.
    /// - [`MountFault::Memory`]: want of memory.
    fn read<V: View>(
        &self,
        alloc: Global,
        view: &mut V,
        sectors: u64,
    ) -> Result<Self::Answer, MountFault>
        ensures answer { IfSome (V.content view.old) (λ c. GivesOrFails Self.shown scan_cause result (meant self.now c sectors)) }
        ensures kept { KeepsView V.content V.kept V.faults view.old view.new }
        ensures fault { IsErrOf result MountFault.Device → Rose (V.faults view.old) (V.faults view.new) }
        ensures counted { Counts scan_cause (V.faults view.old) (V.faults view.new) result };
}

/// Something that is read of a volume that was opened, as `with_volume` and `in_volume` open it.
pub trait VolumeReader {
    /// What is answered.
    type Answer;

    /// What contracts say of an answer.
    ghost Shown: { Type 0 };

    ghost shown: { Self.Answer → Self.Shown };

    /// What is meant of a recovered content, whose volume has this geometry and so many clusters,
    /// or what refuses it.
    ghost meant: { Self → Content → the_geometry → ℕ → Result Self.Shown the_refusal };

    /// Reads it of a view of the volume's recovered content: the sectors of a cluster and the
    /// cluster at which the file table begins, and the clusters that the volume has. The view is
    /// only read. Each reader names its cost.
    ///
    /// - [`MountFault::Refused`]: the refusal that is meant.
    /// - [`MountFault::Device`]: the view failed.
    /// - [`MountFault::Memory`]: want of memory.
    fn read<V: View>(
        &self,
        alloc: Global,
        view: &mut V,
        geometry: &Geometry,
        total: u64,
    ) -> Result<Self::Answer, MountFault>
        requires place { geometry.now.mft * geometry.now.per_cluster < 2 ^ 62 }
        ensures answer { IfSome (V.content view.old) (λ c. GivesOrFails Self.shown scan_cause result (meant self.now c geometry.now total)) }
        ensures kept { KeepsView V.content V.kept V.faults view.old view.new }
        ensures fault { IsErrOf result MountFault.Device → Rose (V.faults view.old) (V.faults view.new) }
        ensures counted { Counts scan_cause (V.faults view.old) (V.faults view.new) result };
}
