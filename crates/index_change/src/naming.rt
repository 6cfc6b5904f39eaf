ghost use Rattle.std.specs.Prelude.{◌≡◌, ◌+◌, ◌*◌, ◌≤◌, true, length};
ghost use Rattle.record_model.specs.Attributes.{units_at};
ghost use Rattle.record_model.specs.Values.{is_file_name, units_of};
ghost use Rattle.index_tree.specs.file_tree.Names.{comes_before, name_order};
ghost use Rattle.index_change.specs.Orders.{is_entry_of, stands_by};

use byteorder::{ByteOrder, LittleEndian};
use index_node::{is_file_name, u8_at, u64_at};
use index_plan::{KeySide, Target, Test};
use index_tree::{FileRef, Link, Upcase, is_same_reference};
use record_model::Entry;
use std::cmp::Ordering;

// Names in keys, which are compared where they stand: that takes no memory.

// The most units that a name has.
const MOST_UNITS: usize = 255;

// The units behind the first 0x42 bytes of a key.
#[tactic(auto, using(crate::proofs::KeyUnits::read_units))]
fn read_units(key: &[u8], units: &mut [u16])
    requires { length key.now ≡ 0x42 + 2 * length units.old }
    ensures { units.new ≡ units_at 0x42 (length units.old) key.now }
{
    LittleEndian::read_u16_into(key.split_at(0x42).1, units);
}

// How a name stands to that of a key, whose units are put into a place for them.
fn order_units(up: &Upcase, name: &[u16], key: &[u8], units: &mut [u16]) -> Ordering
    requires { length key.now ≡ 0x42 + 2 * length units.old }
    ensures { result ≡ name_order up.now name.now (units_at 0x42 (length units.old) key.now) }
{
    read_units(key, units);
    up.order(name, units)
}

// The same with a buffer for the units of any name.
#[tactic(auto, using(crate::proofs::KeyUnits::key_size), unfolding(record_model::specs::Values::units_of))]
fn order_in(up: &Upcase, name: &[u16], key: &[u8], buffer: &mut [u16]) -> Ordering
    requires key { is_file_name key.now ≡ true }
    requires buffer { 255 ≤ length buffer.old }
    ensures { result ≡ name_order up.now name.now (units_of key.now) }
{
    let count = usize::from(u8_at(key, 0x40));
    order_units(up, name, key, buffer.split_at_mut(count).0)
}

// How a name stands to that of a key.
fn order_to(up: &Upcase, name: &[u16], key: &[u8]) -> Ordering
    requires { is_file_name key.now ≡ true }
    ensures { result ≡ name_order up.now name.now (units_of key.now) }
{
    let mut buffer = [0u16; MOST_UNITS];
    order_in(up, name, key, &mut buffer)
}

// Whether a name stands before that of a key.
fn comes_before(up: &Upcase, name: &[u16], key: &[u8]) -> bool
    requires { is_file_name key.now ≡ true }
    ensures { result ≡ comes_before up.now name.now (units_of key.now) }
{
    order_to(up, name, key).is_lt()
}

/// A name that is put in: it stands before each key whose name it comes before.
#[derive(Clone, Copy)]
pub struct Before<'a> {
    pub up: &'a Upcase,
    pub name: &'a [u16],
}

impl<'a> Test for Before<'a> {
    ghost use Rattle.index_change.specs.Orders.{goes};

    ghost goes = { λ b k. goes b.up.now b.name.now k };

    fn goes_before(&self, entry: &Entry) -> bool {
        let key = entry.key.as_slice();
        is_file_name(key) && comes_before(self.up, self.name, key)
    }
}

// Whether a key is that of a link whose name it has.
#[tactic(auto, using(crate::proofs::KeyUnits::key_size), unfolding(record_model::specs::Values::parent_of, record_model::specs::Values::space_of))]
fn is_entry_of(link: &Link, child: FileRef, key: &[u8]) -> bool
    requires { is_file_name key.now ≡ true }
    ensures { result ≡ is_entry_of link.now (record { child = child; value = key.now }) }
{
    is_same_reference(child, link.child)
        && is_same_reference(FileRef::unpack(u64_at(key, 0)), link.parent)
        && u8_at(key, 0x41) == link.space
}

// Where a link stands against a key, by how the names stand and whether the key is that of the
// link.
fn stands_by(order: Ordering, here: bool) -> KeySide
    ensures { result ≡ stands_by order here }
{
    match order {
        Ordering::Less => KeySide::Before,
        Ordering::Equal => { if here { KeySide::Here } else { KeySide::Beside } }
        Ordering::Greater => KeySide::Behind,
    }
}

/// A link whose key is taken out.
#[derive(Clone, Copy)]
pub struct Wanted<'a> {
    pub up: &'a Upcase,
    pub link: &'a Link,
}

impl<'a> Target for Wanted<'a> {
    ghost use Rattle.index_change.specs.Orders.{stands};

    ghost side = { λ w k. stands w.up.now w.link.now k };

    fn side(&self, entry: &Entry) -> KeySide {
        let key = entry.key.as_slice();
        if !is_file_name(key) {
            return KeySide::Beside;
        }
        let here = is_entry_of(self.link, entry.child, key);
        stands_by(order_to(self.up, self.link.name.units(), key), here)
    }
}
