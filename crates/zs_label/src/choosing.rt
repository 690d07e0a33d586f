//! The best of the labels that were found on the images of a pool.

ghost use Rattle.std.specs.Prelude.{◌≡◌, ◌≤◌, ◌<◌, ◌+◌, ◌/◌, ◌^◌, ◌==◌, true, length, option_map, if◌then◌else◌, IfSome};
ghost use Rattle.std.specs.List.{AllPass, find, list_all, list_any};
ghost use Rattle.zs_label.specs.Label.{is_valid};
ghost use Rattle.zs_label.specs.Best.{newest, best_in, is_of_pool, is_of_record, lacks_mirror, has_label, mask_of, agreed, choice};
ghost use Rattle.zs_ids.specs.declared.limits.TheConstants.{DEVICES};

use crate::{Label, LabelFault};
use zs_ids::limits::DEVICES;

/// A label, and on which image it was found.
#[derive(Clone, Copy)]
pub(crate) struct Found {
    /// The image's number, from 0.
    pub image: u8,
    pub label: Label,
}

/// The best of the labels that were found on so many images, and a bit for each image that has a label of the same
/// transaction group.
#[tactic(auto, unfolding(crate::specs::Best::choice))]
pub(crate) fn choose(found: &[Found], images: u8) -> Result<(Label, u32), LabelFault>
    requires few { images ≤ DEVICES }
    requires valid { AllPass (λ f. is_valid f.label) found.now }
    ensures { result ≡ choice images found.now }
{
    match best(found) {
        None => Err(LabelFault::NoLabel),
        Some(label) => agree(found, images, label),
    }
}

/// The label of the greatest transaction group; the first of them, where there are more.
#[tactic(auto, using(crate::proofs::Agreed::best_valid))]
fn best(found: &[Found]) -> Option<Label>
    requires { AllPass (λ f. is_valid f.label) found.now }
    ensures best { result ≡ best_in found.now }
    ensures valid { IfSome result (λ l. is_valid l ≡ true) }
{
    let txg = newest(found);
    found.iter().find(|f| f.label.txg == txg).map(|f| f.label)
}

/// The greatest transaction group; 0 where there is no label.
fn newest(found: &[Found]) -> u64
    ensures { result ≡ newest found.now }
{
    let mut txg = 0;
    for f in found {
        txg = f.label.txg.max(txg);
    }
    txg
}

/// Whether the labels agree with the best one, and of which images it is.
#[tactic(auto, unfolding(crate::specs::Best::agreed), using(crate::proofs::Agreed::width_some))]
fn agree(found: &[Found], images: u8, best: Label) -> Result<(Label, u32), LabelFault>
    requires few { images ≤ DEVICES }
    requires valid { is_valid best ≡ true }
    ensures { result ≡ agreed images found.now best }
{
    if !are_of_pool(found, &best) {
        return Err(LabelFault::OtherPool);
    }
    if !has_devices(&best, images) {
        return Err(LabelFault::ImageCount);
    }
    if !are_of_record(found, &best) {
        return Err(LabelFault::Split);
    }
    if lacks_mirror(found, best.width, best.devices / best.width) {
        return Err(LabelFault::VdevMissing);
    }
    let mask = mask_of(found, images, best.txg);
    Ok((best, mask))
}

/// Whether all labels are of the best one's pool.
fn are_of_pool(found: &[Found], best: &Label) -> bool
    ensures { result ≡ list_all (is_of_pool best.now) found.now }
{
    found.iter().all(|f| is_of_pool(f, best))
}

/// Whether the label's pool has so many devices.
fn has_devices(best: &Label, images: u8) -> bool
    ensures { result ≡ (best.now.devices == images) }
{
    best.devices == u32::from(images)
}

/// Whether all labels of the best one's transaction group are of its record.
fn are_of_record(found: &[Found], best: &Label) -> bool
    ensures { result ≡ list_all (is_of_record best.now) found.now }
{
    found.iter().all(|f| is_of_record(f, best))
}

/// Whether the label is of the best one's pool, and names the image that it was found on.
fn is_of_pool(f: &Found, best: &Label) -> bool
    ensures { result ≡ is_of_pool best.now f.now }
{
    f.label.pool == best.pool
        && f.label.devices == best.devices
        && f.label.width == best.width
        && f.label.blocks == best.blocks
        && f.label.limit == best.limit
        && f.label.every == best.every
        && f.label.number == u32::from(f.image)
}

/// Whether the label is of an older transaction group than the best one, or of the same record.
fn is_of_record(f: &Found, best: &Label) -> bool
    ensures { result ≡ is_of_record best.now f.now }
{
    f.label.txg != best.txg || (f.label.length == best.length && f.label.sum == best.sum)
}

/// Whether one of the mirrors has no image with a label.
#[tactic(auto, using(crate::proofs::Agreed::lacks_on, crate::proofs::Agreed::lacks_next))]
fn lacks_mirror(found: &[Found], width: u32, mirrors: u32) -> bool
    requires { 1 ≤ width }
    ensures { result ≡ lacks_mirror width found.now mirrors }
{
    for mirror in 0..mirrors {
        if !has_mirror(found, width, mirror) {
            return true;
        }
    }
    false
}

/// Whether a mirror has an image with a label.
fn has_mirror(found: &[Found], width: u32, mirror: u32) -> bool
    requires { 1 ≤ width }
    ensures { result ≡ list_any (λ f. f.image / width == mirror) found.now }
{
    found.iter().any(|f| u32::from(f.image) / width == mirror)
}

/// The images that have a label of the transaction group, a bit for each.
#[tactic(auto, using(crate::proofs::Agreed::mask_next, crate::proofs::Agreed::mask_below))]
fn mask_of(found: &[Found], images: u8, txg: u64) -> u32
    requires { images ≤ DEVICES }
    ensures { result ≡ mask_of txg found.now images }
{
    let mut mask = 0;
    for image in 0..images {
        mask = with_bit(mask, has_label(found, txg, image), image);
    }
    mask
}

/// Whether an image has a label of the transaction group.
fn has_label(found: &[Found], txg: u64, image: u8) -> bool
    ensures { result ≡ has_label txg found.now image }
{
    found.iter().any(|f| f.image == image && f.label.txg == txg)
}

/// The mask of images below this one, with its bit set, or as it is.
#[tactic(auto, using(crate::proofs::Agreed::set_bit))]
fn with_bit(mask: u32, set: bool, image: u8) -> u32
    requires few { image < DEVICES }
    requires below { mask < 2 ^ image }
    ensures { result ≡ mask + (if set then 2 ^ image else 0) }
{
    if set {
        return mask | (1 << image);
    }
    mask
}
