//! The bytes of blocks.

ghost use Rattle.std.specs.Prelude.{◌≡◌, ◌<◌, ◌≤◌, ◌+◌, ◌-◌, ◌*◌, ◌^◌, ◌++◌, ◌∷◌, ◌==◌, ◌&&◌, not, length, replicate, OnOk, IfOk, IfSome, flat_map, if◌then◌else◌, Some, None};
ghost use Rattle.byteorder.specs.Endian.{big_bytes};
ghost use Rattle.zs_ids.specs.Blocks.{bp_at};
ghost use Rattle.zs_ids.specs.declared.limits.TheConstants.{SECTOR};
ghost use Rattle.zs_objset.specs.Bytes.{record_bytes, is_key, found_at, pointer_bytes, child_of, first_block, top_depth, exponent_of, record_exponent, dnode_bytes, dnode_with, dnodes_from, pointers_below, block_bytes_of, repeated, upto};
ghost use Rattle.zs_objset.specs.Staged.{over};

use std::alloc::{AllocError, Global};
use std::collections::BTreeMap;
use zs_ids::{Blocks, Bp, Key};
use zs_sum::bp_write;

/// The bytes of a record of that fill and size.
pub fn record_of(alloc: Global, fill: u64, sectors: u16) -> Result<Vec<u8>, AllocError>
    ensures bytes { IfOk result (λ v. v.items ≡ record_bytes fill sectors) }
    ensures size { IfOk result (λ v. length v.items ≡ SECTOR * sectors) }
{
    let sector = sector_of(alloc, fill)?;
    let record = repeat(alloc, &sector, sectors)?;
    Ok(record)
}

/// A sector of that fill.
fn sector_of(alloc: Global, fill: u64) -> Result<Vec<u8>, AllocError>
    ensures bytes { IfOk result (λ v. v.items ≡ repeated 64 (big_bytes 8 fill)) }
    ensures size { IfOk result (λ v. length v.items ≡ SECTOR) }
{
    let word = fill.to_be_bytes();
    let sector = repeat(alloc, &word, 64)?;
    Ok(sector)
}

/// Some bytes, so many times.
#[tactic(auto, using(crate::proofs::Lists::repeated_more, crate::proofs::Lists::repeated_none))]
fn repeat(alloc: Global, bytes: &[u8], n: u16) -> Result<Vec<u8>, AllocError>
    ensures bytes { IfOk result (λ v. v.items ≡ repeated n bytes.now) }
    ensures size { IfOk result (λ v. length v.items ≡ n * length bytes.now) }
{
    let mut out = Vec::new(alloc);
    for _i in 0..n {
        out.extend_from_slice(bytes)?;
    }
    Ok(out)
}

/// The bytes of the metadata block at a key of a map: a root, a block of dnodes, or a block of an object above
/// its records.
pub fn block_bytes<T: Blocks>(alloc: Global, map: &T, key: Key) -> Result<Vec<u8>, AllocError>
    ensures { IfOk result (λ v. v.items ≡ block_bytes_of (bp_at (T.entries map.now)) key) }
{
    let none = BTreeMap::new(alloc);
    block_over(alloc, map, &none, key)
}

/// The bytes of a metadata block, where some pointers are put over those of the map.
#[tactic(auto, unfolding(crate::specs::Bytes::block_bytes_of))]
pub(crate) fn block_over<T: Blocks>(
    alloc: Global,
    map: &T,
    staged: &BTreeMap<Key, Bp>,
    key: Key,
) -> Result<Vec<u8>, AllocError>
    ensures bytes { IfOk result (λ v. v.items ≡ block_bytes_of (over staged.now.entries (bp_at (T.entries map.now))) key) }
    ensures size { IfOk result (λ v. length v.items ≡ 4096) }
{
    let mut out = Vec::with_capacity(alloc, 4096)?;
    if has_dnodes(key) {
        put_dnodes(&mut out, map, staged, u32::from(key.object))?;
        return Ok(out);
    }
    put_pointers(&mut out, map, staged, key)?;
    Ok(out)
}

/// Whether the block at a key is one of dnodes.
fn has_dnodes(key: Key) -> bool
    ensures { result ≡ (key.rank == 0) && not (key.depth == 0) }
{
    key.rank == 0 && key.depth != 0
}

/// Puts the dnodes of 32 objects, from one on.
#[tactic(auto, using(crate::proofs::Lists::upto_none))]
fn put_dnodes<T: Blocks>(
    out: &mut Vec<u8>,
    map: &T,
    staged: &BTreeMap<Key, Bp>,
    object: u32,
) -> Result<(), AllocError>
    requires { object < 2 ^ 16 }
    ensures bytes { OnOk result (out.new.items ≡ out.old.items ++ dnodes_from (over staged.now.entries (bp_at (T.entries map.now))) object) }
    ensures size { OnOk result (length out.new.items ≡ length out.old.items + 4096) }
{
    for i in 0..32 {
        put_dnode(out, map, staged, object + i)?;
    }
    Ok(())
}

/// Puts the pointers to the blocks below a root or an indirect block.
#[tactic(auto, using(crate::proofs::Lists::upto_none))]
fn put_pointers<T: Blocks>(
    out: &mut Vec<u8>,
    map: &T,
    staged: &BTreeMap<Key, Bp>,
    key: Key,
) -> Result<(), AllocError>
    ensures bytes { OnOk result (out.new.items ≡ out.old.items ++ pointers_below (over staged.now.entries (bp_at (T.entries map.now))) key) }
    ensures size { OnOk result (length out.new.items ≡ length out.old.items + 4096) }
{
    for i in 0..64u16 {
        let bp = below(map, staged, key, i);
        put_pointer(out, bp)?;
    }
    Ok(())
}

/// Puts the dnode of an object.
#[tactic(auto, unfolding(crate::specs::Bytes::dnode_bytes))]
fn put_dnode<T: Blocks>(
    out: &mut Vec<u8>,
    map: &T,
    staged: &BTreeMap<Key, Bp>,
    object: u32,
) -> Result<(), AllocError>
    ensures bytes { OnOk result (out.new.items ≡ out.old.items ++ dnode_bytes (over staged.now.entries (bp_at (T.entries map.now))) object) }
    ensures size { OnOk result (length out.new.items ≡ length out.old.items + 128) }
{
    match top(map, staged, object) {
        None => {
            out.extend_from_slice(&[0; 128])?;
            Ok(())
        }
        Some(depth) => {
            let size = exponent(first(map, staged, object, 3));
            let bp = first(map, staged, object, depth);
            put_object(out, depth, size, bp)?;
            Ok(())
        }
    }
}

/// Puts the dnode of an object whose top block is at that depth.
fn put_object(out: &mut Vec<u8>, depth: u8, exponent: u8, top: Option<Bp>) -> Result<(), AllocError>
    requires { depth < 4 }
    ensures bytes { OnOk result (out.new.items ≡ out.old.items ++ ((4 - depth) ∷ exponent ∷ replicate 62 0 ++ pointer_bytes top)) }
    ensures size { OnOk result (length out.new.items ≡ length out.old.items + 128) }
{
    out.extend_from_slice(&[4 - depth, exponent])?;
    out.extend_from_slice(&[0; 62])?;
    put_pointer(out, top)?;
    Ok(())
}

/// The depth of an object's top block.
fn top<T: Blocks>(map: &T, staged: &BTreeMap<Key, Bp>, object: u32) -> Option<u8>
    ensures depth { result ≡ top_depth (over staged.now.entries (bp_at (T.entries map.now))) object }
    ensures small { IfSome result (λ d. d < 4) }
{
    if first(map, staged, object, 0).is_some() {
        return Some(0);
    }
    if first(map, staged, object, 1).is_some() {
        return Some(1);
    }
    if first(map, staged, object, 2).is_some() {
        return Some(2);
    }
    if first(map, staged, object, 3).is_some() {
        return Some(3);
    }
    None
}

/// The pointer to an object's block at that depth over its first leaves.
fn first<T: Blocks>(map: &T, staged: &BTreeMap<Key, Bp>, object: u32, depth: u8) -> Option<Bp>
    ensures { result ≡ found_at (over staged.now.entries (bp_at (T.entries map.now))) (first_block object depth) }
{
    find(map, staged, object, 1, 0, u16::from(depth))
}

/// The exponent of the record size that a record's pointer shows.
fn exponent(bp: Option<Bp>) -> u8
    ensures { result ≡ record_exponent bp }
{
    match bp {
        None => 0,
        Some(bp) => exponent_of_size(bp.sectors),
    }
}

/// The exponent of a size in sectors; 0 where it is no size of a record.
fn exponent_of_size(sectors: u16) -> u8
    ensures { result ≡ exponent_of sectors }
{
    match sectors {
        1 => 9,
        2 => 10,
        4 => 11,
        8 => 12,
        16 => 13,
        32 => 14,
        64 => 15,
        128 => 16,
        256 => 17,
        _ => 0,
    }
}

/// The pointer to the i-th block below a root or an indirect block.
fn below<T: Blocks>(map: &T, staged: &BTreeMap<Key, Bp>, key: Key, i: u16) -> Option<Bp>
    requires { i < 64 }
    ensures { result ≡ found_at (over staged.now.entries (bp_at (T.entries map.now))) (child_of key i) }
{
    let object = u32::from(key.object);
    let leaf = u64::from(key.leaf);
    let depth = u16::from(key.depth) + 1;
    if key.rank == 0 {
        return find(map, staged, object + 32 * u32::from(i), 0, leaf, depth);
    }
    find(
        map,
        staged,
        object,
        key.rank,
        leaf + u64::from(i) * span(key.depth),
        depth,
    )
}

/// How many leaves a block below a block of that depth covers.
fn span(depth: u8) -> u64
    ensures span { result ≡ 64 ^ (2 - depth) }
    ensures few { result ≤ 4096 }
{
    match depth {
        0 => 4096,
        1 => 64,
        _ => 1,
    }
}

/// The pointer at a key, of those that are put over the map, or else of the map. `None` where the numbers do not
/// fit a key.
fn find<T: Blocks>(
    map: &T,
    staged: &BTreeMap<Key, Bp>,
    object: u32,
    rank: u8,
    leaf: u64,
    depth: u16,
) -> Option<Bp>
    ensures { result ≡ found_at (over staged.now.entries (bp_at (T.entries map.now))) (record { object = object; rank = rank; leaf = leaf; depth = depth }) }
{
    let key = Key {
        object: u16::try_from(object).ok()?,
        rank,
        leaf: u32::try_from(leaf).ok()?,
        depth: u8::try_from(depth).ok()?,
    };
    look_up(map, staged, key)
}

/// The pointer at a key, of those that are put over the map, or else of the map.
fn look_up<T: Blocks>(map: &T, staged: &BTreeMap<Key, Bp>, key: Key) -> Option<Bp>
    ensures { result ≡ over staged.now.entries (bp_at (T.entries map.now)) key }
{
    match staged.get(&key) {
        Some(bp) => Some(*bp),
        None => map.get(key),
    }
}

/// Puts a pointer, or 64 zeros for none.
#[tactic(auto, unfolding(crate::specs::Bytes::pointer_bytes))]
fn put_pointer(out: &mut Vec<u8>, bp: Option<Bp>) -> Result<(), AllocError>
    ensures bytes { OnOk result (out.new.items ≡ out.old.items ++ pointer_bytes bp) }
    ensures size { OnOk result (length out.new.items ≡ length out.old.items + 64) }
{
    match bp {
        None => {
            out.extend_from_slice(&[0; 64])?;
            Ok(())
        }
        Some(bp) => {
            out.extend_from_slice(&bp_write(&bp))?;
            Ok(())
        }
    }
}
