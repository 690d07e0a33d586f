//! Laws of a record and of its parts.

ghost use Rattle.zs_record.specs.Laws.{PartsLaw};
ghost use Rattle.zs_record.specs.StoredLaws.{StoredLaw, StoredPartsLaw};

use zs_sum::pointer_law;

/// What is written of a name, a key, entries or a set is read back, with the rest left over, and what is read spells
/// back to the bytes that it was read from.
pub fn parts_law()
    ensures { PartsLaw }
{
    pointer_law();
}

/// The same of a head, of datasets, of the sets of devices, of a scan and of its queue.
pub fn stored_parts_law()
    ensures { StoredPartsLaw }
{
    pointer_law();
}

/// What is written of a record is read back, but for the places of its entries' calls in the journals, which no record
/// has; and a record that is read has no other bytes than those that are written of it.
pub fn stored_law()
    ensures { StoredLaw }
{
    pointer_law();
}
