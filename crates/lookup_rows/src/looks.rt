//! What a mounted new volume answers to operations that look.
ghost use Rattle.std.specs.Prelude.{◌≡◌, true, IfOk};
ghost use Rattle.tree_model.specs.Steps.{is_look};

use crate::volume::{fail_behind, volume};
use device_view::piece_room;
use run_model::Turn;
use sector_device::{Device, MemoryDevice};
use std::alloc::{AllocError, Global};
use std::test::Fail;
use transcript::text;
use tree_model::{Name, Op, Path, Reply, Units};
use volume_mount::{MountedTree, mount};

// What is asked of a path.
#[derive(Clone, Copy)]
enum Ask {
    Stat,
    List,
    Read(u64, u64),
}

// What is asked, the parts of the path, and the printed reply.
struct Row(Ask, &'static [&'static str], &'static str);

static ROWS: [Row; 10] = [
    Row(
        Ask::List,
        &[],
        "names 12 $AttrDef $BadClus $Bitmap $Boot $Extend $LogFile $MFT $MFTMirr $Secure $UpCase $Volume .",
    ),
    Row(Ask::List, &["$extend"], "names 0"),
    Row(Ask::List, &["$MFT"], "not-directory 1"),
    Row(Ask::Stat, &["$mft"], "stat 0 1 system 1 0 0 0 0 0 0"),
    Row(Ask::Stat, &["."], "stat 5 5 directory 1 0 0 0 0 0 0"),
    Row(Ask::Stat, &["$mft", "x"], "not-directory 1"),
    Row(Ask::Stat, &["q"], "not-found 1"),
    Row(Ask::Stat, &[".", "$extend", "q"], "not-found 3"),
    Row(Ask::Read(0, 1), &[], "is-directory"),
    Row(Ask::Read(0, 1), &["$MFT"], "system"),
];

fn path(alloc: Global, parts: &[&str]) -> Result<Path, Fail> {
    let mut path = Path::new(alloc);
    for part in parts {
        path.push(Units::copy_of(alloc, Name::from_text(alloc, part)?.units())?)?;
    }
    Ok(path)
}

fn op(alloc: Global, ask: Ask, parts: &[&str]) -> Result<Op, Fail>
    ensures { IfOk result (λ op. is_look op ≡ true) }
{
    let path = path(alloc, parts)?;
    Ok(match ask {
        Ask::Stat => Op::Stat { path },
        Ask::List => Op::List { path },
        Ask::Read(offset, count) => Op::Read {
            path,
            offset,
            count,
        },
    })
}

// The first turn of a run on the device: what is asked of a path.
fn turn(
    alloc: Global,
    tree: &MountedTree,
    device: &mut MemoryDevice,
    ask: Ask,
    parts: &[&str],
) -> Result<Turn, Fail> {
    let op = op(alloc, ask, parts)?;
    let faults_before = device.faults();
    let mut room = piece_room(alloc)?;
    let reply = tree.answer(alloc, &mut room, device, &op);
    Ok(Turn {
        client: 1,
        number: 1,
        serial: 1,
        usn: 0,
        moment: device.moment(),
        faults_before,
        faults_after: device.faults(),
        op,
        reply,
    })
}

fn is_replied(
    alloc: Global,
    tree: &MountedTree,
    device: &mut MemoryDevice,
    row: &Row,
) -> Result<bool, Fail> {
    let mut turns = Vec::new(alloc);
    turns
        .push(turn(alloc, tree, device, row.0, row.1)?)
        .map_err(AllocError::from)?;
    let mut printed = String::new(alloc);
    text(&turns, &[], &mut printed)?;
    let wanted = format!(in alloc; "1 1 1 0 {}\n", row.2)?;
    Ok(printed.as_str() == wanted.as_str())
}

#[test]
fn answers_through_its_indexes(rt: HostRuntime) -> Result<(), Fail> {
    let alloc = rt.alloc();
    let mut device = volume(alloc, &[])?;
    let mounted = mount(alloc, &mut device)?;
    let tree = MountedTree::new(alloc, &mounted)?;
    for (number, row) in ROWS.iter().enumerate() {
        assert!(rt; is_replied(alloc, &tree, &mut device, row)?, "row {number}");
    }
    Ok(())
}

// Whether a listing of the root is replied to by a fault, and how often the device then failed.
fn listed(
    alloc: Global,
    tree: &MountedTree,
    device: &mut MemoryDevice,
) -> Result<(bool, u64), Fail> {
    let turn = turn(alloc, tree, device, Ask::List, &[])?;
    let failures = turn.faults_after.saturating_sub(turn.faults_before);
    Ok((matches!(turn.reply, Reply::Fault), failures))
}

// The command in which the device fails is `fault`, and the ones before and after it aren't.
#[test]
fn fails_in_one_command(rt: HostRuntime) -> Result<(), Fail> {
    let alloc = rt.alloc();
    let mut device = volume(alloc, &[])?;
    let mounted = mount(alloc, &mut device)?;
    let tree = MountedTree::new(alloc, &mounted)?;
    for wanted in [(false, 0), (true, 1), (false, 0)] {
        if wanted.0 {
            fail_behind(&mut device, 0)?;
        }
        assert!(rt; listed(alloc, &tree, &mut device)? == wanted);
    }
    Ok(())
}
