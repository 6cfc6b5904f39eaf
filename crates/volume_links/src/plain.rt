//! Plain records, which are judged where they stand: base records with no attribute list and no
//! index in clusters, that break none of the rules 1 to 8.
ghost use Rattle.std.specs.Prelude.{◌≡◌, ◌==◌, ◌&&◌, ◌++◌, ◌≤◌, [], true, false, not, length, is_some, IfOk, IfSome, IsTrue};
ghost use Rattle.std.specs.List.{cons_option, filter};
ghost use Rattle.record_model.specs.Values.{is_file_name, has_lawful_value};
ghost use Rattle.record_model.specs.Pairs.{runs_of};
ghost use Rattle.record_model.specs.StdValues.{file_name_of};
ghost use Rattle.record_model.specs.Records.{has_first, has_size, is_base, attribute_bytes, is_end_mark, cut, most_attributes};
ghost use Rattle.record_model.specs.Constants.{standard_information, file_name};
ghost use Rattle.file_record.specs.attr_codec.Reading.{attr_seen, attr_at};
ghost use Rattle.file_tree.specs.Trees.{is_long};
ghost use Rattle.state_model.specs.Files.{named, attr_link};
ghost use Rattle.state_model.specs.Loads.{span, has_fitting_pairs, whole_record};
ghost use Rattle.volume_links.specs.Plain.{Grows, is_lawful, value_link, may_follow, are_plain, is_plain, TakesPlain, ArePlain, IsPlain};

use crate::names::push_long;
use disk_model::{u16_at, u32_at, u64_at};
use file_record::{AttrRef, FixedValue, Form, read};
use file_tree::Link;
use host_base::{FileRef, Memory};
use record_model::{
    ATTRIBUTE_LIST, END_MARK, FILE_NAME, INDEX_ALLOCATION, MOST_ATTRIBUTES, STANDARD_INFORMATION,
    Sizes, StdInfo,
};
use record_rules::value_link;
use std::alloc::Global;
use volume_map::pairs_fit;

// Whether the first attribute begins at a multiple of 8 inside the used bytes.
#[tactic(auto, unfolding(record_model::specs::Records::has_first))]
fn has_first(body: &[u8]) -> bool
    requires { length body.now ≡ 1024 }
    ensures { result ≡ has_first body.now }
{
    let first = u32::from(u16_at(body, 0x14));
    first % 8 == 0 && first < u32_at(body, 0x18)
}

// Whether the used bytes lie inside the allocated ones, which are 1,024.
#[tactic(auto, unfolding(record_model::specs::Records::has_size))]
fn has_size(body: &[u8]) -> bool
    requires { length body.now ≡ 1024 }
    ensures { result ≡ has_size body.now }
{
    let allocated = u32_at(body, 0x1c);
    u32_at(body, 0x18) <= allocated && allocated == 1024
}

// Whether the base reference is zero.
#[tactic(auto, unfolding(record_model::specs::Records::is_base))]
fn is_base(body: &[u8]) -> bool
    requires { length body.now ≡ 1024 }
    ensures { result ≡ is_base body.now }
{
    u64_at(body, 0x20) == 0
}

#[tactic(auto, unfolding(record_model::specs::Records::is_end_mark))]
fn is_end_mark(bytes: &[u8]) -> bool
    requires { 4 ≤ length bytes.now }
    ensures { result ≡ is_end_mark bytes.now }
{
    u32_at(bytes, 0) == END_MARK
}

// Takes a file name; whether the value is one.
#[tactic(auto, using(crate::proofs::Plainly::is_name))]
fn take_name(
    alloc: Global,
    child: FileRef,
    value: &[u8],
    links: &mut Vec<Link>,
) -> Result<bool, Memory>
    ensures lawful { IfOk result (λ is_name. is_name ≡ is_file_name value.now) }
    ensures links { IfOk result (λ _. links.new.items ≡ links.old.items ++ filter is_long (cons_option (named child (file_name_of value.now)) [])) }
{
    let link = value_link(alloc, child, value)?;
    let is_name = link.is_some();
    push_long(links, link)?;
    Ok(is_name)
}

// Whether standard information is long enough; other values are free.
#[tactic(auto, unfolding(record_model::specs::StdValues::std_info_of))]
fn has_info(kind: u32, value: &[u8]) -> bool
    requires { (kind == file_name) ≡ false }
    ensures { result ≡ is_lawful kind value.now }
{
    kind != STANDARD_INFORMATION || StdInfo::read(value).is_ok()
}

// Takes a value that stands in the record; whether it is lawful.
fn take_value(
    alloc: Global,
    child: FileRef,
    kind: u32,
    value: &[u8],
    links: &mut Vec<Link>,
) -> Result<bool, Memory>
    ensures lawful { IfOk result (λ lawful. lawful ≡ is_lawful kind value.now) }
    ensures links { IfOk result (λ _. links.new.items ≡ links.old.items ++ filter is_long (cons_option (value_link child kind value.now) [])) }
{
    if kind == FILE_NAME {
        return take_name(alloc, child, value, links);
    }
    Ok(has_info(kind, value))
}

// Whether an attribute in clusters is lawful, and its mapping pairs fit.
fn takes_pairs(alloc: Global, kind: u32, sizes: Sizes, pairs: &[u8]) -> Result<bool, Memory>
    ensures { IfOk result (λ plain. plain ≡ (not (kind == standard_information) && not (kind == file_name) && span sizes (runs_of sizes.first pairs.now))) }
{
    if kind == STANDARD_INFORMATION || kind == FILE_NAME {
        return Ok(false);
    }
    pairs_fit(alloc, sizes, pairs)
}

// Takes an attribute; whether its value is lawful, and its mapping pairs fit.
#[tactic(auto, unfolding(record_model::specs::Values::has_lawful_value, state_model::specs::Files::attr_link))]
fn take_attr(
    alloc: Global,
    child: FileRef,
    attr: &AttrRef<'_>,
    links: &mut Vec<Link>,
) -> Result<bool, Memory>
    ensures lawful { IfOk result (λ plain. plain ≡ (has_lawful_value (attr_seen attr.now) && has_fitting_pairs (attr_seen attr.now))) }
    ensures links { IfOk result (λ _. links.new.items ≡ links.old.items ++ filter is_long (cons_option (attr_link child (attr_seen attr.now)) [])) }
{
    match attr.form {
        Form::Resident { value, .. } => take_value(alloc, child, attr.head.kind, value, links),
        Form::Mapped { sizes, pairs } => takes_pairs(alloc, attr.head.kind, sizes, pairs),
    }
}

// Takes the attribute at the front of these bytes, and answers its length; none where no plain
// record has it. `least` is the least type that it may have.
fn take_front(
    alloc: Global,
    child: FileRef,
    bytes: &[u8],
    least: &mut u32,
    links: &mut Vec<Link>,
) -> Result<Option<usize>, Memory>
    ensures exact { IfOk result (λ length. is_some length ≡ may_follow least.old (attr_at bytes.now)) }
    ensures front { IfOk result (λ length. IfSome length (λ n. TakesPlain child bytes.now n least.old least.new links.old.items links.new.items)) }
    ensures grows { IfOk result (λ _. Grows links.old.items links.new.items) }
{
    let Ok(attr) = read(bytes) else {
        return Ok(None);
    };
    let kind = attr.head.kind;
    if kind < *least || kind == ATTRIBUTE_LIST || kind == INDEX_ALLOCATION {
        return Ok(None);
    }
    *least = kind;
    if !take_attr(alloc, child, &attr, links)? {
        return Ok(None);
    }
    Ok(Some(attr.length as usize))
}

// Takes the attributes up to the end mark; whether a plain record has them.
#[tactic(auto, using(crate::proofs::Plainly::inside))]
fn take_all(
    alloc: Global,
    child: FileRef,
    bytes: &[u8],
    links: &mut Vec<Link>,
) -> Result<bool, Memory>
    ensures exact { IfOk result (λ plain. plain ≡ are_plain 0 (cut most_attributes bytes.now)) }
    ensures plain { IfOk result (λ plain. IsTrue plain → ArePlain child bytes.now links.old.items links.new.items) }
    ensures grows { IfOk result (λ _. Grows links.old.items links.new.items) }
{
    let mut least = 0;
    let mut rest = bytes;
    for _ in 0..MOST_ATTRIBUTES {
        if rest.len() < 4 {
            return Ok(false);
        }
        if is_end_mark(rest) {
            return Ok(true);
        }
        let Some(length) = take_front(alloc, child, rest, &mut least, links)? else {
            return Ok(false);
        };
        rest = rest.split_at(length).1;
    }
    Ok(false)
}

// The bytes of the attributes of a body whose first two rules hold.
#[tactic(auto, using(file_record::proofs::Whole::bounds), unfolding(record_model::specs::Records::attribute_bytes))]
fn attribute_bytes(body: &[u8]) -> &[u8]
    requires whole { length body.now ≡ 1024 }
    requires first { has_first body.now ≡ true }
    requires size { has_size body.now ≡ true }
    ensures { result.now ≡ attribute_bytes body.now }
{
    let first = u16_at(body, 0x14) as usize;
    let used = u32_at(body, 0x18) as usize;
    body.split_at(first).1.split_at(used - first).0
}

/// Whether the body of a record in use, of this number, is that of a plain record: then its long
/// names are appended, else any may have been. It copies nothing but these names, and is linear in
/// the body. The error is want of memory.
pub fn take_plain(
    alloc: Global,
    number: u64,
    body: &[u8],
    links: &mut Vec<Link>,
) -> Result<bool, Memory>
    requires { length body.now ≡ 1024 }
    ensures exact { IfOk result (λ plain. plain ≡ is_plain (whole_record body.now)) }
    ensures plain { IfOk result (λ plain. IsTrue plain → IsPlain number body.now links.old.items links.new.items) }
    ensures grows { IfOk result (λ _. Grows links.old.items links.new.items) }
{
    if !has_first(body) || !has_size(body) || !is_base(body) {
        return Ok(false);
    }
    let child = FileRef {
        number,
        seq: u16_at(body, 0x10),
    };
    take_all(alloc, child, attribute_bytes(body), links)
}
