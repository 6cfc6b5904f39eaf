//! The lines of the texts, each appended to a text.
ghost use Rattle.std.specs.Prelude.{◌≡◌, ◌∷◌, ◌++◌, OnOk, string_bytes};
ghost use Rattle.run_model.specs.Texts.{kind_text, eight_digits};
ghost use Rattle.image_dump.specs.Texts.{link_line, total_line, node_line, long_line, short_line, journal_line, room_line, entry_line, span_line};

use file_tree::{Journal, Kind, Link, Node, Usn};
use host_base::Memory;
use std::alloc::AllocError;
use std::fmt::Write;

/// `N S P Q NAME`: child number and sequence, parent number and sequence, and the name.
#[tactic(auto, unfolding(crate::specs::Texts::link_line))]
pub fn push_link(text: &mut String, link: &Link) -> Result<(), Memory>
    ensures { OnOk result (string_bytes text.new ≡ string_bytes text.old ++ link_line link.now) }
{
    let child = link.child;
    let parent = link.parent;
    let (n, s, p, q) = (child.number, child.seq, parent.number, parent.seq);
    write!(text, "{n} {s} {p} {q} ")?;
    link.name.append_text(text)?;
    text.push('\n')?;
    Ok(())
}

/// `links K`.
#[tactic(auto, unfolding(crate::specs::Texts::total_line))]
pub fn push_total(text: &mut String, count: usize) -> Result<(), AllocError>
    ensures { OnOk result (string_bytes text.new ≡ string_bytes text.old ++ total_line count) }
{
    writeln!(text, "links {count}")
}

fn kind_text(kind: Kind) -> &'static str
    ensures { result.now ≡ kind_text kind }
{
    match kind {
        Kind::Directory => "directory",
        Kind::File => "file",
        Kind::Fixed => "fixed",
        Kind::Opaque => "opaque",
        Kind::System => "system",
    }
}

/// `node N S KIND SIZE VALID CLUSTERS CREATED MODIFIED CHANGED READ`.
#[tactic(auto, unfolding(crate::specs::Texts::node_line))]
pub fn push_node(text: &mut String, node: &Node) -> Result<(), AllocError>
    ensures { OnOk result (string_bytes text.new ≡ string_bytes text.old ++ node_line node.now) }
{
    let (number, seq, kind) = (node.number, node.seq, kind_text(node.kind));
    let (size, valid, clusters) = (node.size, node.valid, node.clusters);
    let (created, modified) = (node.created, node.modified);
    let (changed, read_at) = (node.changed, node.read_at);
    write!(text, "node {number} {seq} {kind} ")?;
    write!(text, "{size} {valid} {clusters} ")?;
    writeln!(text, "{created} {modified} {changed} {read_at}")
}

/// `link N P long NAME`.
#[tactic(auto, unfolding(crate::specs::Texts::long_line))]
pub fn push_long(text: &mut String, link: &Link) -> Result<(), Memory>
    ensures { OnOk result (string_bytes text.new ≡ string_bytes text.old ++ long_line link.now) }
{
    let (child, parent) = (link.child.number, link.parent.number);
    write!(text, "link {child} {parent} long ")?;
    link.name.append_text(text)?;
    text.push('\n')?;
    Ok(())
}

/// `link N P short NAME`.
#[tactic(auto, unfolding(crate::specs::Texts::short_line))]
pub fn push_short(text: &mut String, link: &Link) -> Result<(), Memory>
    ensures { OnOk result (string_bytes text.new ≡ string_bytes text.old ++ short_line link.now) }
{
    let (child, parent) = (link.child.number, link.parent.number);
    write!(text, "link {child} {parent} short ")?;
    link.name.append_text(text)?;
    text.push('\n')?;
    Ok(())
}

/// `journal FIRST NEXT REACH`, or `journal -` where there is none.
#[tactic(auto, unfolding(crate::specs::Texts::journal_line))]
pub fn push_journal(text: &mut String, journal: &Option<Journal>) -> Result<(), AllocError>
    ensures { OnOk result
        (string_bytes text.new ≡ string_bytes text.old ++ journal_line journal.now) }
{
    match journal {
        Some(journal) => {
            let (first, next, reach) = (journal.first, journal.next, journal.reach);
            writeln!(text, "journal {first} {next} {reach}")
        }
        None => text.push_str("journal -\n"),
    }
}

/// `room R`.
#[tactic(auto, unfolding(crate::specs::Texts::room_line))]
pub fn push_room(text: &mut String, room: u64) -> Result<(), AllocError>
    ensures { OnOk result (string_bytes text.new ≡ string_bytes text.old ++ room_line room) }
{
    writeln!(text, "room {room}")
}

// A blank, and the number in eight lower-case hexadecimal digits.
#[tactic(auto, unfolding(run_model::specs::Texts::eight_digits))]
fn push_eight_digits(text: &mut String, number: u32) -> Result<(), AllocError>
    ensures { OnOk result
        (string_bytes text.new ≡ string_bytes text.old ++ 32 ∷ eight_digits number) }
{
    let digits = hex::encode(*text.allocator(), number.to_be_bytes())?;
    text.push(' ')?;
    text.push_str(&digits)
}

/// `USN N S P Q REASON ATTRS TIME NAME`: child number and sequence, parent number and sequence.
#[tactic(auto, unfolding(crate::specs::Texts::entry_line))]
pub fn push_entry(text: &mut String, entry: &Usn) -> Result<(), Memory>
    ensures { OnOk result (string_bytes text.new ≡ string_bytes text.old ++ entry_line entry.now) }
{
    let (child, parent) = (entry.child, entry.parent);
    let (n, s, p, q) = (child.number, child.seq, parent.number, parent.seq);
    let (usn, time) = (entry.usn, entry.time);
    write!(text, "{usn} {n} {s} {p} {q}")?;
    push_eight_digits(text, entry.reason)?;
    push_eight_digits(text, entry.flags)?;
    write!(text, " {time} ")?;
    entry.name.append_text(text)?;
    text.push('\n')?;
    Ok(())
}

/// `journal FIRST NEXT`.
#[tactic(auto, unfolding(crate::specs::Texts::span_line))]
pub fn push_span(text: &mut String, first: u64, next: u64) -> Result<(), AllocError>
    ensures { OnOk result (string_bytes text.new ≡ string_bytes text.old ++ span_line first next) }
{
    writeln!(text, "journal {first} {next}")
}
