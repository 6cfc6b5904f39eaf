//! How replies are printed.
ghost use Rattle.std.specs.Prelude.{◌≡◌, ◌∷◌, ◌++◌, IfOk, OnOk, length, codes, string_bytes};
ghost use Rattle.std.specs.List.{flat_map};
ghost use Rattle.std.specs.Fmt.{decimal};
ghost use Rattle.run_model.specs.Texts.{blank_after, numbered, twice_numbered, eight_digits, hex_or_dash, kind_text, why_text, listed_names, path_text, hit_text, usn_text, reply_text};

use host_base::Memory;
use std::alloc::{AllocError, Global};
use std::fmt::Write;
use tree_model::{Hit, Kind, Name, Reply, Usn, Why};

fn kind_text(kind: Kind) -> &'static str
    ensures { result.now ≡ kind_text kind }
{
    match kind {
        Kind::Directory => "directory",
        Kind::File => "file",
        Kind::Fixed => "fixed",
        Kind::Opaque => "opaque",
        Kind::System => "system",
    }
}

fn file_text(alloc: Global, number: u64, seq: u16, kind: Kind) -> Result<String, AllocError>
    ensures { IfOk result
        (λ text. string_bytes text ≡ blank_after number (blank_after seq (kind_text kind))) }
{
    let kind = kind_text(kind);
    format!(in alloc; "{number} {seq} {kind}")
}

fn sizes_text(alloc: Global, links: u64, size: u64, clusters: u64) -> Result<String, AllocError>
    ensures { IfOk result
        (λ text. string_bytes text ≡ blank_after links (blank_after size (decimal clusters))) }
{
    format!(in alloc; "{links} {size} {clusters}")
}

fn times_text(
    alloc: Global,
    created: u64,
    modified: u64,
    changed: u64,
    read_at: u64,
) -> Result<String, AllocError>
    ensures { IfOk result (λ text. string_bytes text
        ≡ blank_after created (blank_after modified (blank_after changed (decimal read_at)))) }
{
    format!(in alloc; "{created} {modified} {changed} {read_at}")
}

fn why_text(why: Why) -> &'static str
    ensures { result.now ≡ why_text why }
{
    match why {
        Why::List => "list",
        Why::Reparse => "reparse",
        Why::Encrypted => "encrypted",
        Why::Compressed => "compressed",
        Why::Sparse => "sparse",
        Why::Object => "object",
    }
}

// A word alone.
fn word(alloc: Global, word: &str) -> Result<String, Memory>
    ensures { IfOk result (λ text. string_bytes text ≡ word.now) }
{
    Ok(String::from_str(alloc, word)?)
}

// A word and a number.
fn numbered(alloc: Global, word: &str, number: u64) -> Result<String, Memory>
    ensures { IfOk result (λ text. string_bytes text ≡ numbered word.now number) }
{
    Ok(format!(in alloc; "{word} {number}")?)
}

// A word and two numbers.
fn twice_numbered(alloc: Global, word: &str, a: u64, b: u64) -> Result<String, Memory>
    ensures { IfOk result (λ text. string_bytes text ≡ twice_numbered word.now a b) }
{
    Ok(format!(in alloc; "{word} {a} {b}")?)
}

#[tactic(auto, unfolding(run_model::specs::Texts::hex_or_dash))]
fn bytes_text(alloc: Global, bytes: &[u8]) -> Result<String, Memory>
    ensures { IfOk result (λ text. string_bytes text ≡ codes "bytes " ++ hex_or_dash bytes.now) }
{
    match bytes {
        [] => Ok(String::from_str(alloc, "bytes -")?),
        [_, ..] => {
            let digits = hex::encode(alloc, bytes)?;
            Ok(format!(in alloc; "bytes {digits}")?)
        }
    }
}

// How many names there are, and the names, each behind a blank.
fn names_text(alloc: Global, names: &[Name]) -> Result<String, Memory>
    ensures { IfOk result (λ text. string_bytes text
        ≡ codes "names " ++ (decimal (length names.now) ++ listed_names names.now)) }
{
    let count = names.len();
    let mut text = format!(in alloc; "names {count}")?;
    for name in names {
        text.push(' ')?;
        name.append_text(&mut text)?;
    }
    Ok(text)
}

// The names of a path, each behind a slash.
fn push_path(text: &mut String, names: &[Name]) -> Result<(), Memory>
    ensures { OnOk result
        (string_bytes text.new ≡ string_bytes text.old ++ path_text names.now) }
{
    for name in names {
        text.push('/')?;
        name.append_text(text)?;
    }
    Ok(())
}

fn push_hit(text: &mut String, hit: &Hit) -> Result<(), Memory>
    ensures { OnOk result (string_bytes text.new ≡ string_bytes text.old ++ hit_text hit.now) }
{
    let child = hit.child;
    write!(text, " {child}:")?;
    push_path(text, hit.path.as_slice())
}

// How many files were found, and each with its path.
fn found_text(alloc: Global, hits: &[Hit]) -> Result<String, Memory>
    ensures { IfOk result (λ text. string_bytes text
        ≡ codes "found " ++ (decimal (length hits.now) ++ flat_map hit_text hits.now)) }
{
    let count = hits.len();
    let mut text = format!(in alloc; "found {count}")?;
    for hit in hits {
        push_hit(&mut text, hit)?;
    }
    Ok(text)
}

#[tactic(auto, unfolding(run_model::specs::Texts::eight_digits))]
fn push_usn(text: &mut String, entry: &Usn) -> Result<(), Memory>
    ensures { OnOk result (string_bytes text.new ≡ string_bytes text.old ++ usn_text entry.now) }
{
    let (usn, child) = (entry.usn, entry.child.number);
    let reason = hex::encode(*text.allocator(), entry.reason.to_be_bytes())?;
    write!(text, " {usn}:{reason}:{child}:")?;
    entry.name.append_text(text)
}

fn push_entries(text: &mut String, entries: &[Usn]) -> Result<(), Memory>
    ensures { OnOk result
        (string_bytes text.new ≡ string_bytes text.old ++ flat_map usn_text entries.now) }
{
    for entry in entries {
        push_usn(text, entry)?;
    }
    Ok(())
}

// The USN behind the records, how many there are, and each of them.
fn journal_text(alloc: Global, next: u64, entries: &[Usn]) -> Result<String, Memory>
    ensures { IfOk result (λ text. string_bytes text ≡ codes "journal " ++
        blank_after next (decimal (length entries.now) ++ flat_map usn_text entries.now)) }
{
    let count = entries.len();
    let mut text = format!(in alloc; "journal {next} {count}")?;
    push_entries(&mut text, entries)?;
    Ok(text)
}

/// The printed reply. The error is want of memory. It takes time linear in the text.
#[tactic(auto, unfolding(run_model::specs::Texts::reply_text))]
pub fn reply_text(alloc: Global, reply: &Reply) -> Result<String, Memory>
    ensures { IfOk result (λ text. string_bytes text ≡ reply_text reply.now) }
{
    match reply {
        Reply::Created { number, seq } => {
            twice_numbered(alloc, "created", *number, u64::from(*seq))
        }
        Reply::Wrote { count } => numbered(alloc, "wrote", *count),
        Reply::Size { size } => numbered(alloc, "size", *size),
        Reply::Bytes { bytes } => bytes_text(alloc, bytes.as_slice()),
        Reply::Stat {
            number,
            seq,
            kind,
            links,
            size,
            clusters,
            created,
            modified,
            changed,
            read_at,
        } => {
            let file = file_text(alloc, *number, *seq, *kind)?;
            let sizes = sizes_text(alloc, *links, *size, *clusters)?;
            let times = times_text(alloc, *created, *modified, *changed, *read_at)?;
            Ok(format!(in alloc; "stat {file} {sizes} {times}")?)
        }
        Reply::Names { names } => names_text(alloc, names.as_slice()),
        Reply::Linked => word(alloc, "linked"),
        Reply::Renamed => word(alloc, "renamed"),
        Reply::Removed => word(alloc, "removed"),
        Reply::Synced { turns } => numbered(alloc, "synced", *turns),
        Reply::Index { usn } => numbered(alloc, "index", *usn),
        Reply::Found { hits } => found_text(alloc, hits.as_slice()),
        Reply::Journal { next, entries } => journal_text(alloc, *next, entries.as_slice()),
        Reply::BadName => word(alloc, "bad-name"),
        Reply::NotFound { part } => numbered(alloc, "not-found", *part),
        Reply::NotDirectory { part } => numbered(alloc, "not-directory", *part),
        Reply::IsDirectory => word(alloc, "is-directory"),
        Reply::System => word(alloc, "system"),
        Reply::FixedBy { why } => {
            let why = why_text(*why);
            Ok(format!(in alloc; "fixed {why}")?)
        }
        Reply::Exists => word(alloc, "exists"),
        Reply::NotEmpty => word(alloc, "not-empty"),
        Reply::IntoItself => word(alloc, "into-itself"),
        Reply::TooLong { end } => numbered(alloc, "too-long", *end),
        Reply::MftFull { records } => numbered(alloc, "mft-full", *records),
        Reply::NoSpace { room, needed } => twice_numbered(alloc, "no-space", *room, *needed),
        Reply::RecordFull { used } => numbered(alloc, "record-full", *used),
        Reply::IndexDeep { height } => numbered(alloc, "index-deep", *height),
        Reply::Trimmed { first } => numbered(alloc, "trimmed", *first),
        Reply::Ahead { next } => numbered(alloc, "ahead", *next),
        Reply::Fault => word(alloc, "fault"),
        Reply::Memory => word(alloc, "memory"),
    }
}
