//! Whether a dataset's blocks are in order, and which it shares with its parent.

ghost use Rattle.std.specs.Prelude.{◌≡◌, ◌↔◌, ◌≤◌, ◌^◌, ◌||◌, not, nat_le, IsTrue};
ghost use Rattle.std.specs.List.{list_any, list_all};
ghost use Rattle.std.specs.Ordering.{is_lt};
ghost use Rattle.zs_ids.specs.Key.{key_cmp};
ghost use Rattle.zs_ids.specs.GraphValid.{HasBlocks, Shares, last_birth};
ghost use Rattle.zs_plain.specs.BlockTests.{are_places_apart, does_share, fits_levels, fits_object, has_block, has_blocks, has_form, has_levels, has_parent, has_places, is_block, is_dnodes_key, is_entry, is_in_order, is_inner, is_leaf, is_object_key, keys_rise, share_sector};

use crate::dataset::PlainDataset;
use crate::sound::last_birth;
use zs_ids::limits::OBJECTS;
use zs_ids::{Bp, Key, Place};

/// Whether the key is below all of these.
fn is_below_all(key: Key, entries: &[(Key, Bp)]) -> bool
    ensures { result ≡ list_all (λ f. is_lt (key_cmp key f.0)) entries.now }
{
    entries.iter().all(|f| key.cmp(&f.0).is_lt())
}

/// Whether each key is below those after it.
fn keys_rise(entries: &[(Key, Bp)]) -> bool
    ensures { result ≡ keys_rise entries.now }
{
    match entries {
        [] => true,
        [first, rest @ ..] => is_below_all(first.0, rest) && keys_rise(rest),
    }
}

/// Whether the blocks of that many sectors at two places share a sector.
fn share_sector(sectors: u16, p: Place, q: Place) -> bool
    ensures { result ≡ share_sector sectors p q }
{
    let size = u64::from(sectors);
    let first = u64::from(p.sector);
    let second = u64::from(q.sector);
    p.vdev == q.vdev && (first < second + size && second < first + size)
}

/// Whether the block of that many sectors at a place shares none with those at the others.
fn is_apart_from_all(sectors: u16, place: Place, others: &[Place]) -> bool
    ensures { result ≡ list_all (λ q. not (share_sector sectors place q)) others.now }
{
    others.iter().all(|q| !share_sector(sectors, place, *q))
}

/// Whether the blocks of that many sectors at the places share no sector.
fn are_places_apart(sectors: u16, places: &[Place]) -> bool
    ensures { result ≡ are_places_apart sectors places.now }
{
    match places {
        [] => true,
        [first, rest @ ..] => {
            is_apart_from_all(sectors, *first, rest) && are_places_apart(sectors, rest)
        }
    }
}

/// Whether the pointer uses one to three places, which lie apart.
fn has_places(bp: Bp) -> bool
    ensures { result ≡ has_places bp }
{
    let count = usize::from(bp.count);
    1 <= count && (count <= 3 && are_places_apart(bp.sectors, &bp.places[..count]))
}

/// Whether the pointer has this size and level, and one to three places, which lie apart.
fn has_form(bp: &Bp, sectors: u16, level: u8) -> bool
    ensures { result ≡ has_form bp.now sectors level }
{
    bp.sectors == sectors && (bp.level == level && has_places(*bp))
}

/// How many leaves a block at a level covers.
fn span(level: u8) -> u32
    requires { level ≤ 3 }
    ensures span { result ≡ 64 ^ level }
    ensures positive { 1 ≤ result }
{
    match level {
        0 => 1,
        1 => 64,
        2 => 4096,
        _ => 262_144,
    }
}

/// Whether the key is that of a block of an object, at a level at which a block covers `span` leaves, where the
/// object may have `leaves` leaves.
fn is_object_key(span: u32, leaves: u32, level: u8, key: Key) -> bool
    requires low { level ≤ 3 }
    requires positive { 1 ≤ span }
    ensures { result ≡ is_object_key span leaves level key }
{
    let object = 1 <= key.object && key.object <= OBJECTS;
    let rank = key.rank == 1;
    let first = key.leaf % span == 0;
    let below = key.leaf < leaves;
    let depth = u16::from(key.depth) + u16::from(level) == 3;
    object && (rank && (first && (below && depth)))
}

/// Whether the key is that of a block of dnodes.
fn is_dnodes_key(key: Key) -> bool
    ensures { result ≡ is_dnodes_key key }
{
    (key.object % 32 == 0 && key.object < 2048)
        && (key.rank == 0 && (key.leaf == 0 && key.depth == 1))
}

/// Whether the entry is a block above the records of an object.
fn is_inner(levels: u8, level: u8, entry: &(Key, Bp)) -> bool
    requires few { levels ≤ 4 }
    requires low { level ≤ 3 }
    ensures { result ≡ is_inner levels level entry.now }
{
    let key = is_object_key(span(level), span(levels.saturating_sub(1)), level, entry.0);
    let form = has_form(&entry.1, 8, level);
    0 < level && (level < levels && (key && form))
}

/// Whether the entry is a record.
fn is_leaf(levels: u8, size: u16, entry: &(Key, Bp)) -> bool
    requires { levels ≤ 4 }
    ensures { result ≡ is_leaf levels size entry.now }
{
    let key = is_object_key(1, span(levels.saturating_sub(1)), 0, entry.0);
    let form = has_form(&entry.1, size, 0);
    0 < levels && (key && form)
}

/// Whether the entry is a block of an object of that many levels and that record size.
fn is_block(levels: u8, size: u16, entry: &(Key, Bp)) -> bool
    requires { levels ≤ 4 }
    ensures { result ≡ is_block levels size entry.now }
{
    let root = entry.0 == Key::ROOT;
    let root_form = has_form(&entry.1, 8, 1);
    let dnodes = is_dnodes_key(entry.0);
    let dnodes_form = has_form(&entry.1, 8, 0);
    let inner = is_inner(levels, 3_u8.saturating_sub(entry.0.depth), entry);
    let leaf = is_leaf(levels, size, entry);
    ((root && root_form) || (dnodes && dnodes_form)) || (inner || leaf)
}

/// Whether an entry is at the key, not born before.
fn has_block(entries: &[(Key, Bp)], key: Key, birth: u64) -> bool
    ensures { result ≡ has_block entries.now key birth }
{
    entries.iter().any(|e| e.0 == key && birth <= e.1.birth)
}

/// Whether the parent block, if there is one, is there.
fn has_parent(entries: &[(Key, Bp)], birth: u64, parent: Option<Key>) -> bool
    ensures { result ≡ has_parent entries.now birth parent }
{
    match parent {
        None => true,
        Some(key) => has_block(entries, key, birth),
    }
}

/// Whether the entry is a block of an object of that many levels and that record size, below its parent.
fn is_in_order(entries: &[(Key, Bp)], levels: u8, size: u16, entry: &(Key, Bp)) -> bool
    requires { levels ≤ 4 }
    ensures { result ≡ is_in_order entries.now levels size entry.now }
{
    let block = is_block(levels, size, entry);
    let parent = has_parent(entries, entry.1.birth, entry.0.parent(levels));
    block && parent
}

/// Whether all entries of the object are.
fn fits_object(entries: &[(Key, Bp)], object: u16, levels: u8, size: u16) -> bool
    requires { levels ≤ 4 }
    ensures { result ≡ fits_object entries.now object levels size }
{
    entries.iter().all(|e| !(e.0.object == object) || is_in_order(entries, levels, size, e))
}

/// Whether they are at some record size.
fn fits_levels(entries: &[(Key, Bp)], object: u16, levels: u8) -> bool
    requires { levels ≤ 4 }
    ensures { result ≡ fits_levels entries.now object levels }
{
    [1_u16, 2, 4, 8, 16, 32, 64, 128, 256]
        .iter()
        .any(|size| fits_object(entries, object, levels, *size))
}

/// Whether they are at some number of levels.
fn has_levels(entries: &[(Key, Bp)], object: u16) -> bool
    ensures { result ≡ has_levels entries.now object }
{
    let none = fits_levels(entries, object, 0);
    let one = fits_levels(entries, object, 1);
    let two = fits_levels(entries, object, 2);
    let three = fits_levels(entries, object, 3);
    let four = fits_levels(entries, object, 4);
    none || (one || (two || (three || (four || false))))
}

/// Whether the births of its entries are up to the transaction group n, or up to its creation.
fn are_born(d: &PlainDataset, n: u64) -> bool
    ensures { result ≡ list_all (λ e. nat_le e.1.birth (last_birth d.now n)) d.now.entries }
{
    d.entries
        .as_slice()
        .iter()
        .all(|e| e.1.birth <= last_birth(d, n))
}

/// Whether each entry's object has a number of levels and a record size.
fn all_have_levels(entries: &[(Key, Bp)]) -> bool
    ensures { result ≡ list_all (λ e. has_levels entries.now e.0.object) entries.now }
{
    entries.iter().all(|e| has_levels(entries, e.0.object))
}

/// Whether the dataset's keys rise.
fn has_rising_keys(d: &PlainDataset) -> bool
    ensures { result ≡ keys_rise d.now.entries }
{
    keys_rise(d.entries.as_slice())
}

/// Whether each of its objects has a number of levels and a record size.
fn has_objects(d: &PlainDataset) -> bool
    ensures { result ≡ list_all (λ e. has_levels d.now.entries e.0.object) d.now.entries }
{
    all_have_levels(d.entries.as_slice())
}

/// Whether the dataset's blocks are in order, up to the transaction group n.
pub(crate) fn has_blocks(d: &PlainDataset, n: u64) -> bool
    ensures { result ≡ has_blocks d.now n }
{
    let rising = has_rising_keys(d);
    let born = are_born(d, n);
    let objects = has_objects(d);
    rising && (born && objects)
}

/// Whether the dataset's blocks are in order, born up to the transaction group n or its creation, and each but the
/// root below its parent block.
pub fn has_blocks_in_order(d: &PlainDataset, n: u64) -> bool
    ensures { IsTrue result ↔ HasBlocks d.now n }
{
    has_blocks(d, n)
}

/// Whether the entries are one.
fn is_entry(e: &(Key, Bp), f: &(Key, Bp)) -> bool
    ensures { result ≡ is_entry e.now f.now }
{
    e.0 == f.0 && e.1 == f.1
}

/// Whether the entry is in the list.
fn has_entry(entries: &[(Key, Bp)], e: &(Key, Bp)) -> bool
    ensures { result ≡ list_any (λ f. is_entry f e.now) entries.now }
{
    entries.iter().any(|f| is_entry(f, e))
}

/// Whether the dataset has the keys of all of these entries.
fn has_keys(d: &PlainDataset, entries: &[(Key, Bp)]) -> bool
    ensures { result ≡ list_all (λ e. has_block d.now.entries e.0 0) entries.now }
{
    let mine = d.entries.as_slice();
    entries.iter().all(|e| has_block(mine, e.0, 0))
}

/// Whether what is born up to the transaction group stands in the parent.
fn stands_in_parent(entries: &[(Key, Bp)], until: u64, parent: &[(Key, Bp)]) -> bool
    ensures { result ≡ list_all (λ e. not (nat_le e.1.birth until) || list_any (λ f. is_entry f e) parent.now) entries.now }
{
    entries
        .iter()
        .all(|e| !(e.1.birth <= until) || has_entry(parent, e))
}

/// Whether the dataset has the parent's keys, and what is not its own stands in the parent.
pub(crate) fn does_share(d: &PlainDataset, parent: &PlainDataset) -> bool
    ensures { result ≡ does_share d.now parent.now }
{
    let until = parent.creation;
    let keys = has_keys(d, parent.entries.as_slice());
    let shared = stands_in_parent(d.entries.as_slice(), until, parent.entries.as_slice());
    keys && shared
}

/// Whether the dataset shares with its parent what it should.
pub fn shares(d: &PlainDataset, parent: &PlainDataset) -> bool
    ensures { IsTrue result ↔ Shares d.now parent.now }
{
    does_share(d, parent)
}
