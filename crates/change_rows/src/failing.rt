//! What fails behind the tree, question by question.
ghost use Rattle.std.specs.Prelude.{◌≡◌, ◌≤◌, IfErr};
ghost use Rattle.host_base.specs.Causes.{Counts};
ghost use Rattle.tree_lookup.specs.Asked.{lookup_cause};

use crate::trees::{Asked, op};
use change_lookup::{Census, Found, Lookup, LookupFault, change_found};
use std::alloc::Global;
use std::test::Fail;
use tree_model::{Bytes, FileRef, Kind, Link, Name, NameList, Node};

// A tree that can't be known: below the root stands a directory 65 with the name `d`, and in each
// of these a file 72 with the name `old`. One question fails, by its number from 0 on.
#[derive(Drop)]
struct Failing {
    asked: u64,
    at: u64,
    faults: u64,
}

fn at_question(at: u64) -> Failing {
    Failing {
        asked: 0,
        at,
        faults: 0,
    }
}

fn node(alloc: Global, number: u64, kind: Kind) -> Node {
    Node {
        number,
        seq: 1,
        kind,
        why: None,
        held: false,
        size: 2,
        valid: 2,
        clusters: 0,
        bytes: Bytes::new(alloc),
        flags: 0,
        created: 0,
        modified: 0,
        changed: 0,
        read_at: 0,
    }
}

// The number that a name leads to.
fn child(name: &Name) -> Option<u64> {
    match name.units() {
        [0x64] => Some(65),
        [0x6F, 0x6C, 0x64] => Some(72),
        _ => None,
    }
}

fn link(directory: u64, part: &Name) -> Result<Option<Link>, LookupFault>
    ensures { IfErr result (λ fault. fault ≡ LookupFault.Memory) }
{
    match child(part) {
        Some(number) => Ok(Some(Link {
            parent: FileRef {
                number: directory,
                seq: 1,
            },
            name: part.clone()?,
            space: 0,
            child: FileRef { number, seq: 1 },
        })),
        None => Ok(None),
    }
}

impl Failing {
    // One question more, which may be the one that fails.
    fn ask(&mut self) -> Result<(), LookupFault>
        ensures later { self.old.faults ≤ self.new.faults }
        ensures counted { Counts lookup_cause self.old.faults self.new.faults result }
    {
        let number = self.asked;
        self.asked = number.saturating_add(1);
        if number == self.at {
            self.faults = self.faults.saturating_add(1);
            return Err(LookupFault::Outside);
        }
        Ok(())
    }
}

impl Lookup for Failing {
    ghost use Rattle.std.specs.Prelude.{ℕ, [], None};

    ghost upper = { λ _. [] };

    ghost tree = { λ _. None };

    ghost faults = { λ f. f.faults };

    ghost Kept = { ℕ };

    ghost kept = { λ _. 0 };

    fn node(&mut self, alloc: Global, number: u64) -> Result<Option<Node>, LookupFault> {
        self.ask()?;
        match number {
            5 => Ok(Some(node(alloc, 5, Kind::Directory))),
            65 => Ok(Some(node(alloc, 65, Kind::Directory))),
            72 => Ok(Some(node(alloc, 72, Kind::File))),
            _ => Ok(None),
        }
    }

    fn link(
        &mut self,
        _alloc: Global,
        directory: u64,
        part: &Name,
    ) -> Result<Option<Link>, LookupFault> {
        self.ask()?;
        link(directory, part)
    }

    fn long_names_of(&mut self, _alloc: Global, _number: u64) -> Result<u64, LookupFault> {
        self.ask()?;
        Ok(1)
    }

    fn listing(&mut self, alloc: Global, _directory: u64) -> Result<NameList, LookupFault> {
        self.ask()?;
        Ok(NameList::new(alloc))
    }

    fn front(
        &mut self,
        _alloc: Global,
        _number: u64,
        _at: u64,
        _out: &mut [u8],
    ) -> Result<(), LookupFault> {
        self.ask()
    }
}

impl Census for Failing {
    fn room(&self) -> u64 {
        1480
    }

    fn count(&self) -> u64 {
        256
    }

    fn least_spare(&mut self, _alloc: Global) -> Result<Option<FileRef>, LookupFault> {
        self.ask()?;
        Ok(None)
    }

    fn is_in_system(&mut self, _alloc: Global, _directory: u64) -> Result<bool, LookupFault> {
        self.ask()?;
        Ok(false)
    }
}

// An operation, and how many questions it asks: two for each part of the way, and one for the node
// that it leads to; a new file three more, on its directory, its name and its number.
struct Row(Asked, u64);

static ROWS: [Row; 8] = [
    Row(Asked::Create(&["d", ".."]), 0),
    Row(Asked::Write(&["d", ""], 0, &[0]), 0),
    Row(Asked::Write(&[], 0, &[0]), 1),
    Row(Asked::Create(&["f"]), 4),
    Row(Asked::Create(&["d", "d", "f"]), 8),
    Row(Asked::Write(&["old"], 0, &[0]), 3),
    Row(Asked::Fill(&["d", "old"], 0, 1), 5),
    Row(Asked::Truncate(&["d", "d", "old"], 0), 7),
];

// The operation fails as the question does, and with no question more.
fn fails_at(alloc: Global, asked: &Asked, at: u64) -> Result<bool, Fail> {
    let op = op(alloc, asked)?;
    let mut tree = at_question(at);
    match change_found(alloc, &mut tree, &op) {
        Err(LookupFault::Outside) => Ok(tree.faults == 1 && tree.asked == at.saturating_add(1)),
        _ => Ok(false),
    }
}

// The operation asks so many questions where none fails.
fn asks(alloc: Global, row: &Row) -> Result<bool, Fail> {
    let op = op(alloc, &row.0)?;
    let mut tree = at_question(u64::MAX);
    let found = change_found(alloc, &mut tree, &op)?;
    let is_place = matches!(found, Found::Place { .. });
    Ok(tree.asked == row.1 && tree.faults == 0 && is_place == (row.1 == 4 || row.1 == 8))
}

fn fails_as_wanted(alloc: Global, row: &Row) -> Result<bool, Fail> {
    for at in 0..row.1 {
        if !fails_at(alloc, &row.0, at)? {
            return Ok(false);
        }
    }
    asks(alloc, row)
}

#[test]
fn each_question_may_fail(rt: HostRuntime) -> Result<(), Fail> {
    let alloc = rt.alloc();
    for (i, row) in ROWS.iter().enumerate() {
        assert!(rt; fails_as_wanted(alloc, row)?, "row {i}");
    }
    Ok(())
}
