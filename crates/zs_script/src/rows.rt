//! A line's words, and the command that they make.

ghost use Rattle.std.specs.Prelude.{◌≡◌, map};
ghost use Rattle.zs_script.specs.Rows.{pool_with, pool_of, fs_of, snap_of, clone_of, destroy_of, swap_of, make_with, make_of, write_with, write_of, read_of, walk_of, issue_of, hold_of, rot_of, alone_of, command_of};

use crate::command::{Command, Why};
use crate::fields::{blocks, ds_name, name, number, size};
use crate::verb::Verb;
use zs_ids::limits::{DEVICE_SECTORS, OBJECTS, WAITING, WIDTH};

/// The most levels of an object. Objects have one level in this version.
const LEVELS: u64 = 1;

/// The greatest number of a record.
const LAST_LEAF: u64 = 262_143;

/// The most turns that one line lets a walk take.
const MOST_TURNS: u64 = 1_000_000;

/// The greatest number of a mirror that a line may name.
const LAST_VDEV: u64 = 255;

/// The most pieces of a batch.
const MOST_PIECES: u64 = 1024;

/// The greatest number of a device that a line may name.
const LAST_DEVICE: u64 = 255;

/// The greatest sector that a line may name.
const LAST_SECTOR: u64 = DEVICE_SECTORS as u64 - 1;

/// The most sectors of a range.
const MOST_SECTORS: u64 = 65_536;

/// The command of a line's words, of which the first is the command word.
#[tactic(auto, unfolding(crate::specs::Rows::command_of))]
pub(crate) fn command_with(verb: Verb, words: &[&[u8]]) -> Result<Command, Why>
    ensures { result ≡ command_of verb (map (λ w. w.now) words.now) }
{
    match verb {
        Verb::Pool => pool(words),
        Verb::Fs => fs(words),
        Verb::Snap => snap(words),
        Verb::Clone => clone(words),
        Verb::Destroy => destroy(words),
        Verb::Swap => swap(words),
        Verb::Make => make(words),
        Verb::Write => write(words),
        Verb::Read => read(words),
        Verb::Sync => alone(words, Command::Sync),
        Verb::Scrub => alone(words, Command::Scrub),
        Verb::Pause => alone(words, Command::Pause),
        Verb::Resume => alone(words, Command::Resume),
        Verb::Stop => alone(words, Command::Stop),
        Verb::Walk => walk(words),
        Verb::Issue => issue(words),
        Verb::Hold => hold(words),
        Verb::Land => alone(words, Command::Land),
        Verb::Finish => alone(words, Command::Finish),
        Verb::Rot => rot(words),
        Verb::Errors => alone(words, Command::Errors),
        Verb::List => alone(words, Command::List),
        Verb::Status => alone(words, Command::Status),
    }
}

/// `pool ID W LIMIT EVERY BLOCKS`.
#[tactic(auto, unfolding(crate::specs::Rows::pool_of))]
fn pool(words: &[&[u8]]) -> Result<Command, Why>
    ensures { result ≡ pool_of (map (λ w. w.now) words.now) }
{
    match words {
        [_, pool, width, limit, every, blocks] => pool_with(pool, width, limit, every, blocks),
        _ => Err(Why::Count),
    }
}

#[tactic(auto, unfolding(crate::specs::Rows::pool_with))]
fn pool_with(
    pool: &[u8],
    width: &[u8],
    limit: &[u8],
    every: &[u8],
    most: &[u8],
) -> Result<Command, Why>
    ensures { result ≡ pool_with pool.now width.now limit.now every.now most.now }
{
    let pool = number(pool, 0, u64::MAX)?;
    let width = number(width, 1, u64::from(WIDTH))? as u8;
    let limit = number(limit, 1, u64::from(WAITING))? as u32;
    let every = number(every, 1, 1000)? as u32;
    let blocks = blocks(most)?;
    Ok(Command::Pool {
        pool,
        width,
        limit,
        every,
        blocks,
    })
}

/// `fs NAME`.
#[tactic(auto, unfolding(crate::specs::Rows::fs_of))]
fn fs(words: &[&[u8]]) -> Result<Command, Why>
    ensures { result ≡ fs_of (map (λ w. w.now) words.now) }
{
    match words {
        [_, head] => {
            let name = name(head)?;
            Ok(Command::Fs { name })
        }
        _ => Err(Why::Count),
    }
}

/// `snap HEAD LABEL`.
#[tactic(auto, unfolding(crate::specs::Rows::snap_of))]
fn snap(words: &[&[u8]]) -> Result<Command, Why>
    ensures { result ≡ snap_of (map (λ w. w.now) words.now) }
{
    match words {
        [_, head, label] => {
            let head = name(head)?;
            let label = name(label)?;
            Ok(Command::Snap { head, label })
        }
        _ => Err(Why::Count),
    }
}

/// `clone DS NAME`.
#[tactic(auto, unfolding(crate::specs::Rows::clone_of))]
fn clone(words: &[&[u8]]) -> Result<Command, Why>
    ensures { result ≡ clone_of (map (λ w. w.now) words.now) }
{
    match words {
        [_, ds, head] => {
            let ds = ds_name(ds)?;
            let name = name(head)?;
            Ok(Command::Clone { ds, name })
        }
        _ => Err(Why::Count),
    }
}

/// `destroy DS`.
#[tactic(auto, unfolding(crate::specs::Rows::destroy_of))]
fn destroy(words: &[&[u8]]) -> Result<Command, Why>
    ensures { result ≡ destroy_of (map (λ w. w.now) words.now) }
{
    match words {
        [_, ds] => {
            let ds = ds_name(ds)?;
            Ok(Command::Destroy { ds })
        }
        _ => Err(Why::Count),
    }
}

/// `swap HEAD HEAD`.
#[tactic(auto, unfolding(crate::specs::Rows::swap_of))]
fn swap(words: &[&[u8]]) -> Result<Command, Why>
    ensures { result ≡ swap_of (map (λ w. w.now) words.now) }
{
    match words {
        [_, first, second] => {
            let first = name(first)?;
            let second = name(second)?;
            Ok(Command::Swap { first, second })
        }
        _ => Err(Why::Count),
    }
}

/// `make DS OBJ LEVELS SIZE FILL`.
#[tactic(auto, unfolding(crate::specs::Rows::make_of))]
fn make(words: &[&[u8]]) -> Result<Command, Why>
    ensures { result ≡ make_of (map (λ w. w.now) words.now) }
{
    match words {
        [_, ds, object, levels, size, fill] => make_with(ds, object, levels, size, fill),
        _ => Err(Why::Count),
    }
}

#[tactic(auto, unfolding(crate::specs::Rows::make_with))]
fn make_with(
    ds: &[u8],
    object: &[u8],
    levels: &[u8],
    bytes: &[u8],
    fill: &[u8],
) -> Result<Command, Why>
    ensures { result ≡ make_with ds.now object.now levels.now bytes.now fill.now }
{
    let ds = ds_name(ds)?;
    let object = number(object, 1, u64::from(OBJECTS))? as u16;
    let levels = number(levels, 1, LEVELS)? as u8;
    let size = size(bytes)?;
    let fill = number(fill, 0, u64::MAX)?;
    Ok(Command::Make {
        ds,
        object,
        levels,
        size,
        fill,
    })
}

/// `write DS OBJ LEAF FILL`.
#[tactic(auto, unfolding(crate::specs::Rows::write_of))]
fn write(words: &[&[u8]]) -> Result<Command, Why>
    ensures { result ≡ write_of (map (λ w. w.now) words.now) }
{
    match words {
        [_, ds, object, leaf, fill] => write_with(ds, object, leaf, fill),
        _ => Err(Why::Count),
    }
}

#[tactic(auto, unfolding(crate::specs::Rows::write_with))]
fn write_with(ds: &[u8], object: &[u8], leaf: &[u8], fill: &[u8]) -> Result<Command, Why>
    ensures { result ≡ write_with ds.now object.now leaf.now fill.now }
{
    let ds = ds_name(ds)?;
    let object = number(object, 1, u64::from(OBJECTS))? as u16;
    let leaf = number(leaf, 0, LAST_LEAF)? as u32;
    let fill = number(fill, 0, u64::MAX)?;
    Ok(Command::Write {
        ds,
        object,
        leaf,
        fill,
    })
}

/// `read DS OBJ LEAF`.
#[tactic(auto, unfolding(crate::specs::Rows::read_of))]
fn read(words: &[&[u8]]) -> Result<Command, Why>
    ensures { result ≡ read_of (map (λ w. w.now) words.now) }
{
    match words {
        [_, ds, object, leaf] => {
            let ds = ds_name(ds)?;
            let object = number(object, 1, u64::from(OBJECTS))? as u16;
            let leaf = number(leaf, 0, LAST_LEAF)? as u32;
            Ok(Command::Read { ds, object, leaf })
        }
        _ => Err(Why::Count),
    }
}

/// `walk N`.
#[tactic(auto, unfolding(crate::specs::Rows::walk_of))]
fn walk(words: &[&[u8]]) -> Result<Command, Why>
    ensures { result ≡ walk_of (map (λ w. w.now) words.now) }
{
    match words {
        [_, turns] => {
            let turns = number(turns, 1, MOST_TURNS)? as u32;
            Ok(Command::Walk { turns })
        }
        _ => Err(Why::Count),
    }
}

/// `issue V N`.
#[tactic(auto, unfolding(crate::specs::Rows::issue_of))]
fn issue(words: &[&[u8]]) -> Result<Command, Why>
    ensures { result ≡ issue_of (map (λ w. w.now) words.now) }
{
    match words {
        [_, vdev, pieces] => {
            let vdev = number(vdev, 0, LAST_VDEV)? as u8;
            let pieces = number(pieces, 1, MOST_PIECES)? as u32;
            Ok(Command::Issue { vdev, pieces })
        }
        _ => Err(Why::Count),
    }
}

/// `hold V N`.
#[tactic(auto, unfolding(crate::specs::Rows::hold_of))]
fn hold(words: &[&[u8]]) -> Result<Command, Why>
    ensures { result ≡ hold_of (map (λ w. w.now) words.now) }
{
    match words {
        [_, vdev, pieces] => {
            let vdev = number(vdev, 0, LAST_VDEV)? as u8;
            let pieces = number(pieces, 1, MOST_PIECES)? as u32;
            Ok(Command::Hold { vdev, pieces })
        }
        _ => Err(Why::Count),
    }
}

/// `rot DEV SECTOR COUNT`.
#[tactic(auto, unfolding(crate::specs::Rows::rot_of))]
fn rot(words: &[&[u8]]) -> Result<Command, Why>
    ensures { result ≡ rot_of (map (λ w. w.now) words.now) }
{
    match words {
        [_, dev, sector, count] => {
            let dev = number(dev, 0, LAST_DEVICE)? as u8;
            let sector = number(sector, 0, LAST_SECTOR)? as u32;
            let count = number(count, 1, MOST_SECTORS)? as u32;
            Ok(Command::Rot { dev, sector, count })
        }
        _ => Err(Why::Count),
    }
}

/// A command word alone.
#[tactic(auto, unfolding(crate::specs::Rows::alone_of))]
fn alone(words: &[&[u8]], command: Command) -> Result<Command, Why>
    ensures { result ≡ alone_of command (map (λ w. w.now) words.now) }
{
    match words {
        [_] => Ok(command),
        _ => Err(Why::Count),
    }
}
