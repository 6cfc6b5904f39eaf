//! Records of a small volume by their forms, names and the entries of their indexes.
use crate::parts::{INFO, name_value, push_attribute, push_with, record_of, two_bytes};
use file_record::FileRec;
use std::alloc::{AllocError, Global};
use std::test::Fail;

/// A name of one unit: the number and sequence of its directory, its namespace, its unit.
#[derive(Clone, Copy)]
pub struct OneName(pub u8, pub u8, pub u8, pub u8);

/// An entry of an index: the number and sequence of its file, and the name.
#[derive(Clone, Copy)]
pub struct OneEntry(pub u8, pub u8, pub OneName);

/// What a record is.
#[derive(Clone, Copy)]
pub enum Form {
    /// A directory without an index.
    Directory,
    /// A directory whose index has these entries, and a block below its root or none.
    Indexed(&'static [OneEntry], bool),
    File,
    /// A file without standard information.
    Bare,
    /// A record that extends the root's.
    Extension,
}

/// A record: its number, its sequence, its form and its names.
#[derive(Clone, Copy)]
pub struct OneFile(pub u8, pub u8, pub Form, pub &'static [OneName]);

/// The name of the root, in itself.
pub const DOT: &[OneName] = &[OneName(5, 5, 3, b'.')];

/// A name in the root.
pub const D: &[OneName] = &[OneName(5, 5, 0, b'd')];

/// A long name in the root, and its short one.
pub const FG: &[OneName] = &[OneName(5, 5, 1, b'f'), OneName(5, 5, 2, b'g')];

/// The name of a directory in itself.
pub const ITSELF: &[OneName] = &[OneName(24, 1, 0, b'd')];

/// A name in a directory of another sequence.
pub const OLD: &[OneName] = &[OneName(5, 6, 1, b'f')];

/// The value of this name.
pub fn value_of(alloc: Global, name: &OneName) -> Result<Vec<u8>, AllocError> {
    name_value(alloc, [name.0, name.1], name.2, &[name.3])
}

fn push_entry(node: &mut Vec<u8>, entry: &OneEntry) -> Result<(), AllocError> {
    let OneEntry(number, seq, OneName(parent, parent_seq, space, unit)) = *entry;
    let fields = [
        (0x00, number),
        (0x06, seq),
        (0x08, 0x58),
        (0x0a, 0x44),
        (0x10, parent),
        (0x16, parent_seq),
        (0x50, 1),
        (0x51, space),
        (0x52, unit),
    ];
    push_with(node, &[0; 0x58], &fields)
}

// The entries of a root and the last one, which may lead to a block.
fn node_of(alloc: Global, entries: &[OneEntry], has_child: bool) -> Result<Vec<u8>, AllocError> {
    let mut node = Vec::new(alloc);
    for entry in entries {
        push_entry(&mut node, entry)?;
    }
    node.extend_from_slice(&[0; 8])?;
    if has_child {
        node.extend_from_slice(&[0x18, 0, 0, 0, 3, 0, 0, 0, 0, 0, 0, 0, 0, 0, 0, 0])?;
    } else {
        node.extend_from_slice(&[0x10, 0, 0, 0, 2, 0, 0, 0])?;
    }
    Ok(node)
}

static ROOT: [u8; 32] = [
    0x30, 0, 0, 0, 1, 0, 0, 0, 0, 0x10, 0, 0, 1, 0, 0, 0, 0x10, 0, 0, 0, 0, 0, 0, 0, 0, 0, 0, 0, 0,
    0, 0, 0,
];

fn root_value(alloc: Global, entries: &[OneEntry], has_child: bool) -> Result<Vec<u8>, AllocError> {
    let node = node_of(alloc, entries, has_child)?;
    let [low, high] = two_bytes(node.len().min(1008) + 0x10);
    let fields = [
        (0x14, low),
        (0x15, high),
        (0x18, low),
        (0x19, high),
        (0x1c, u8::from(has_child)),
    ];
    let mut value = Vec::new(alloc);
    push_with(&mut value, &ROOT, &fields)?;
    value.extend_from_slice(&node)?;
    Ok(value)
}

// The attributes of a record, and the end mark.
fn attributes_of(alloc: Global, file: &OneFile) -> Result<Vec<u8>, AllocError> {
    let mut bytes = Vec::new(alloc);
    if let Form::File = file.2 {
        push_attribute(&mut bytes, 0x10, &[], &INFO)?;
    }
    for name in file.3 {
        push_attribute(&mut bytes, 0x30, &[], &value_of(alloc, name)?)?;
    }
    if let Form::Indexed(entries, has_child) = file.2 {
        let value = root_value(alloc, entries, has_child)?;
        push_attribute(&mut bytes, 0x90, b"$\0I\x003\x000\0", &value)?;
    }
    bytes.extend_from_slice(&[0xff; 4])?;
    Ok(bytes)
}

/// The record of this file.
pub fn file_record(alloc: Global, file: &OneFile) -> Result<FileRec, Fail> {
    let attributes = attributes_of(alloc, file)?;
    let (flags, base) = match file.2 {
        Form::Directory | Form::Indexed(..) => (3, 0),
        Form::File | Form::Bare => (1, 0),
        Form::Extension => (1, 5),
    };
    let used = attributes.len().min(1024) + 0x38;
    record_of(alloc, [file.0, file.1, flags, base], used, &attributes)
}

/// The 27 records of these files.
pub fn records_of(alloc: Global, files: &[OneFile]) -> Result<Vec<Option<FileRec>>, Fail> {
    let mut records = Vec::new(alloc);
    for number in 0..27u8 {
        let found = match files.iter().find(|file| file.0 == number) {
            Some(file) => Some(file_record(alloc, file)?),
            None => None,
        };
        records.push(found)?;
    }
    Ok(records)
}
