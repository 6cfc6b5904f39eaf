ghost use Rattle.std.specs.Prelude.{◌≡◌, ℕ, List, Result, ◌≤◌, length};
ghost use Rattle.record_model.specs.declared.values.ValueFault.{ValueFault};

use crate::bytes::put_byte;
use record_model::{
    JournalMax, StdInfo, ValueFault, VolumeInfo, put_u16, put_u32, put_u64, u8_at, u16_at, u32_at,
    u64_at,
};

/// A value whose fields stand at fixed places.
pub trait FixedValue: Sized {
    /// The fewest bytes of a value.
    ghost least: { ℕ };

    /// The fields of a value, or what refuses it.
    ghost fields_of: { List ℕ → Result Self ValueFault };

    /// A value after these fields are written.
    ghost over: { Self → List ℕ → List ℕ };

    /// Reads the fields. `Length` comes where the value has too few bytes: standard information
    /// below 0x30, volume information below 0x0C, a journal's limits below 0x20. The other
    /// faults never come.
    fn read(value: &[u8]) -> Result<Self, ValueFault>
        ensures { result ≡ fields_of value.now };

    /// Sets the bytes of the fields, and leaves the others.
    fn write(&self, out: &mut [u8])
        requires { least ≤ length out.old }
        ensures { out.new ≡ over self.now out.old };
}

impl FixedValue for StdInfo {
    ghost use Rattle.record_model.specs.StdValues.{std_info_of, std_info_over};

    ghost least = { 0x30 };

    ghost fields_of = { std_info_of };

    ghost over = { std_info_over };

    #[tactic(auto, unfolding(record_model::specs::StdValues::std_info_of, record_model::specs::StdValues::std_info_fields, record_model::specs::Values::is_standard_information))]
    fn read(value: &[u8]) -> Result<Self, ValueFault> {
        if value.len() < 0x30 {
            return Err(ValueFault::Length {
                len: value.len() as u64,
            });
        }
        Ok(StdInfo {
            created: u64_at(value, 0x00),
            modified: u64_at(value, 0x08),
            changed: u64_at(value, 0x10),
            read_at: u64_at(value, 0x18),
            flags: u32_at(value, 0x20),
        })
    }

    #[tactic(auto, unfolding(record_model::specs::StdValues::std_info_over))]
    fn write(&self, out: &mut [u8]) {
        put_u64(out, 0x00, self.created);
        put_u64(out, 0x08, self.modified);
        put_u64(out, 0x10, self.changed);
        put_u64(out, 0x18, self.read_at);
        put_u32(out, 0x20, self.flags);
    }
}

impl FixedValue for VolumeInfo {
    ghost use Rattle.record_model.specs.StdValues.{volume_info_of, volume_info_over};

    ghost least = { 0x0C };

    ghost fields_of = { volume_info_of };

    ghost over = { volume_info_over };

    #[tactic(auto, unfolding(record_model::specs::StdValues::volume_info_of, record_model::specs::StdValues::volume_info_fields))]
    fn read(value: &[u8]) -> Result<Self, ValueFault> {
        if value.len() < 0x0c {
            return Err(ValueFault::Length {
                len: value.len() as u64,
            });
        }
        Ok(VolumeInfo {
            major: u8_at(value, 0x08),
            minor: u8_at(value, 0x09),
            flags: u16_at(value, 0x0a),
        })
    }

    #[tactic(auto, unfolding(record_model::specs::StdValues::volume_info_over))]
    fn write(&self, out: &mut [u8]) {
        put_byte(out, 0x08, self.major);
        put_byte(out, 0x09, self.minor);
        put_u16(out, 0x0a, self.flags);
    }
}

impl FixedValue for JournalMax {
    ghost use Rattle.record_model.specs.StdValues.{journal_max_of, journal_max_over};

    ghost least = { 0x20 };

    ghost fields_of = { journal_max_of };

    ghost over = { journal_max_over };

    #[tactic(auto, unfolding(record_model::specs::StdValues::journal_max_of, record_model::specs::StdValues::journal_max_fields))]
    fn read(value: &[u8]) -> Result<Self, ValueFault> {
        if value.len() < 0x20 {
            return Err(ValueFault::Length {
                len: value.len() as u64,
            });
        }
        Ok(JournalMax {
            max: u64_at(value, 0x00),
            delta: u64_at(value, 0x08),
            id: u64_at(value, 0x10),
            lowest: u64_at(value, 0x18),
        })
    }

    #[tactic(auto, unfolding(record_model::specs::StdValues::journal_max_over))]
    fn write(&self, out: &mut [u8]) {
        put_u64(out, 0x00, self.max);
        put_u64(out, 0x08, self.delta);
        put_u64(out, 0x10, self.id);
        put_u64(out, 0x18, self.lowest);
    }
}
