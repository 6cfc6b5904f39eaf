ghost use Rattle.std.specs.Prelude.{◌≡◌, ◌≤◌, OnOk, length};
ghost use Rattle.state_model.specs.host_base.Answers.{Gives};
ghost use Rattle.record_model.specs.Records.{is_end_mark};
ghost use Rattle.record_model.specs.Values.{has_lawful_value};
ghost use Rattle.attr_codec.specs.Reading.{own_bytes, attr_seen};
ghost use Rattle.file_record.specs.Faults.{rec_cause};
ghost use Rattle.file_record.specs.Walks.{length_at, nothing_found, with_attr, with_outside, with_found, verdict_of, attributes_at};

use crate::fault::RecFault;
use attr_codec::{AttrFault, AttrRef, Form, read, u32_at};
use record_model::{AttrList, END_MARK, FILE_NAME, MOST_ATTRIBUTES, STANDARD_INFORMATION, StdInfo};
use std::alloc::{AllocError, Global};
use std_values::{FixedValue, is_file_name};

// The rule that an attribute's length breaks.
const LENGTH_RULE: u32 = 3;

/// The attributes of a record, and whether each value is lawful.
#[derive(Drop)]
pub struct Attributes {
    pub attrs: AttrList,
    pub lawful: bool,
}

// What the attributes so far come to.
#[derive(Drop)]
struct Found {
    // Those whose parts lie inside them.
    attrs: AttrList,
    // The least type that may follow.
    least: u32,
    // Whether no type fell, every name and value lies inside its attribute, and each value is
    // lawful.
    rises: bool,
    inside: bool,
    lawful: bool,
}

// Whether the bytes begin FFFFFFFF.
#[tactic(auto, unfolding(record_model::specs::Records::is_end_mark))]
fn is_end_mark(bytes: &[u8]) -> bool
    requires { 4 ≤ length bytes.now }
    ensures { result ≡ is_end_mark bytes.now }
{
    u32_at(bytes, 0) == END_MARK
}

// Whether standard information or a file name is resident and in shape (Linux-NTFS documentation,
// "$STANDARD_INFORMATION" and "$FILE_NAME"); other attributes are free.
#[tactic(auto, unfolding(record_model::specs::Values::has_lawful_value, record_model::specs::StdValues::std_info_of))]
fn has_lawful_value(attr: &AttrRef<'_>) -> bool
    ensures { result ≡ has_lawful_value (attr_seen attr.now) }
{
    match attr.form {
        Form::Resident { value, .. } => {
            if attr.head.kind == STANDARD_INFORMATION {
                StdInfo::read(value).is_ok()
            } else if attr.head.kind == FILE_NAME {
                is_file_name(value)
            } else {
                true
            }
        }
        Form::Mapped { .. } => {
            attr.head.kind != STANDARD_INFORMATION && attr.head.kind != FILE_NAME
        }
    }
}

impl Found {
    // Before the first attribute.
    fn new(alloc: Global) -> Self
        ensures { result ≡ nothing_found }
    {
        Found {
            attrs: AttrList::new(alloc),
            least: 0,
            rises: true,
            inside: true,
            lawful: true,
        }
    }

    // One attribute more.
    fn keep(&mut self, alloc: Global, attr: &AttrRef<'_>) -> Result<(), AllocError>
        ensures { OnOk result (self.new ≡ with_attr self.old (attr_seen attr.now)) }
    {
        self.attrs.push(attr.to_attr(alloc)?)?;
        self.rises = self.rises && self.least <= attr.head.kind;
        self.least = attr.head.kind;
        self.lawful = self.lawful && has_lawful_value(attr);
        Ok(())
    }

    // One more of this type, whose name or value lies outside it.
    fn pass_over(&mut self, kind: u32)
        ensures { self.new ≡ with_outside self.old kind }
    {
        self.rises = self.rises && self.least <= kind;
        self.least = kind;
        self.inside = false;
    }

    // Adds the attribute at the front of these bytes, and answers its length. `Rule` is 3, where
    // the length is at fault.
    #[tactic(auto, using(crate::proofs::Walking::front))]
    fn add(&mut self, alloc: Global, bytes: &[u8]) -> Result<usize, RecFault>
        ensures length { Gives (λ n. n) rec_cause result (length_at bytes.now) }
        ensures found { OnOk result (self.new ≡ with_found self.old (own_bytes bytes.now)) }
    {
        match read(bytes) {
            Ok(attr) => {
                self.keep(alloc, &attr)?;
                Ok(attr.length as usize)
            }
            Err(AttrFault::Rule { rule: LENGTH_RULE }) => Err(RecFault::Rule { rule: LENGTH_RULE }),
            Err(AttrFault::Rule { .. }) => {
                self.pass_over(u32_at(bytes, 0));
                Ok(u32_at(bytes, 4) as usize)
            }
        }
    }

    // The attributes, or the least rule that is broken.
    fn verdict(self, ended: bool) -> Result<Attributes, RecFault>
        ensures { Gives (λ attributes. attributes) rec_cause result (verdict_of self ended) }
    {
        if !self.rises {
            return Err(RecFault::Rule { rule: 4 });
        }
        if !ended {
            return Err(RecFault::Rule { rule: 5 });
        }
        if !self.inside {
            return Err(RecFault::Rule { rule: 6 });
        }
        Ok(Attributes {
            attrs: self.attrs,
            lawful: self.lawful,
        })
    }
}

/// The attributes in these bytes up to the end mark, in one walk. `Rule` has the least of the rules
/// 3 to 6 that they break; a length at fault ends the walk.
#[tactic(auto, using(crate::proofs::Walking::length_inside))]
pub fn attributes_at(alloc: Global, bytes: &[u8]) -> Result<Attributes, RecFault>
    ensures { Gives (λ attributes. attributes) rec_cause result (attributes_at bytes.now) }
{
    let mut found = Found::new(alloc);
    let mut rest = bytes;
    for _ in 0..MOST_ATTRIBUTES {
        if rest.len() < 4 {
            return found.verdict(false);
        }
        if is_end_mark(rest) {
            return found.verdict(true);
        }
        let length = found.add(alloc, rest)?;
        rest = rest.split_at(length).1;
    }
    found.verdict(false)
}
