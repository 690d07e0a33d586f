//! The datasets, each with the entries that are at home in it.

ghost use Rattle.std.specs.Prelude.{◌≡◌, None};
ghost use Rattle.zs_record.specs.Sets.{is_above, id_above, parent_with, set_head_of, stored_set_of, sets_of};
ghost use Rattle.zs_record.specs.Reading.{Gives, GivesOrWants};

use crate::blocks::entries_of;
use crate::fault::RecordFault;
use crate::names::name_of;
use crate::numbers::{u8_within, u32_of, u64_within};
use std::alloc::Global;
use zs_ids::{Bp, DsId, Key, Name, Seq};

/// The fields of a dataset before its entries.
#[derive(Clone, Copy, Debug, PartialEq, Eq)]
pub struct SetHead {
    /// Its id.
    pub id: DsId,
    /// Whether it is a head. Every other one is a snapshot.
    pub head: bool,
    /// The head's name, or the name of the head of which the snapshot was taken; empty for the origin.
    pub owner: Name,
    /// The snapshot's label, empty for a head and for the origin.
    pub label: Name,
    /// The snapshot that it stands on; `None` for the origin.
    pub parent: Option<DsId>,
    /// The transaction group in which the snapshot was taken; 0 for a head.
    pub creation: u64,
}

/// A dataset as a record has it.
#[derive(Debug, Drop)]
pub struct StoredSet {
    /// What it is.
    pub head: SetHead,
    /// The entries at home in it, those born after its parent's creation, their keys rising.
    pub entries: Seq<(Key, Bp)>,
}

/// Whether the id is above the last one.
fn is_above(last: Option<DsId>, id: u32) -> bool
    ensures { result ≡ is_above last id }
{
    match last {
        None => true,
        Some(last) => last.0 < id,
    }
}

/// An id above the last one.
#[tactic(auto, unfolding(crate::specs::Sets::id_above))]
fn id_above(bytes: &[u8], last: Option<DsId>) -> Result<(DsId, &[u8]), RecordFault>
    ensures { Gives (λ x. (x.0, x.1.now)) result (id_above last bytes.now) }
{
    let (id, rest) = u32_of(bytes)?;
    if !is_above(last, id) {
        return Err(RecordFault::Order);
    }
    Ok((DsId(id), rest))
}

/// The parent of a dataset; the number of none is the greatest.
fn parent_with(n: u32) -> Option<DsId>
    ensures { result ≡ parent_with n }
{
    if n == u32::MAX { None } else { Some(DsId(n)) }
}

/// The fields of a dataset before its entries.
#[tactic(auto, unfolding(crate::specs::Sets::set_head_of))]
fn set_head_of(bytes: &[u8], last: Option<DsId>) -> Result<(SetHead, &[u8]), RecordFault>
    ensures { Gives (λ x. (x.0, x.1.now)) result (set_head_of last bytes.now) }
{
    let (id, rest) = id_above(bytes, last)?;
    let (kind, rest) = u8_within(rest, 0, 1)?;
    let least = if id.0 == 0 { 0 } else { 1 };
    let (owner, rest) = name_of(rest, least, 12)?;
    let least = if id.0 == 0 {
        0
    } else {
        1u8.saturating_sub(kind)
    };
    let most = if kind == 1 { 0 } else { 12 };
    let (label, rest) = name_of(rest, least, most)?;
    let (_, rest) = u8_within(rest, 0, 0)?;
    let (parent, rest) = u32_of(rest)?;
    let latest = if kind == 1 { 0 } else { u64::MAX };
    let (creation, rest) = u64_within(rest, 0, latest)?;
    let head = SetHead {
        id,
        head: kind == 1,
        owner,
        label,
        parent: parent_with(parent),
        creation,
    };
    Ok((head, rest))
}

/// A dataset behind the last one.
#[tactic(auto, unfolding(crate::specs::Sets::stored_set_of))]
fn stored_set_of(
    alloc: Global,
    bytes: &[u8],
    last: Option<DsId>,
) -> Result<(StoredSet, &[u8]), RecordFault>
    ensures { GivesOrWants (λ x. (x.0, x.1.now)) result (stored_set_of last bytes.now) }
{
    let (head, rest) = set_head_of(bytes, last)?;
    let (count, rest) = u32_of(rest)?;
    let (entries, rest) = entries_of(alloc, rest, count)?;
    let set = StoredSet {
        head,
        entries: Seq::from_vec(entries),
    };
    Ok((set, rest))
}

/// So many datasets, their ids rising.
pub(crate) fn sets_of(
    alloc: Global,
    bytes: &[u8],
    count: u32,
) -> Result<(Vec<StoredSet>, &[u8]), RecordFault>
    ensures { GivesOrWants (λ x. (x.0.items, x.1.now)) result (sets_of count None bytes.now) }
{
    let mut sets = Vec::new(alloc);
    let mut last = None;
    let mut rest = bytes;
    for _ in 0..count {
        let (set, after) = stored_set_of(alloc, rest, last)?;
        last = Some(set.head.id);
        sets.push(set)?;
        rest = after;
    }
    Ok((sets, rest))
}
