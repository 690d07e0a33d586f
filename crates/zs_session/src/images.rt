//! The images of a pool: fetching them, and whether they can be made a new one.

ghost use Rattle.std.specs.Prelude.{◌≡◌, ◌≤◌, ◌<◌, ◌+◌, ◌*◌, ◌/◌, ◌++◌, ◌≢◌, ℕ, [], min, true, false, length, map, option_map, IfOk, OnOk, OnErr, IsErrOf, slice_index, slice_range, string_bytes, Err};
ghost use Rattle.zs_io.specs.Told.{Told};
ghost use Rattle.zs_io.specs.Faults.{HasCause};
ghost use Rattle.zs_script.specs.declared.refusal.Refusal.{Refusal};
ghost use Rattle.zs_session.specs.Images.{of_each, devices_of, told_at, head_of, is_zero, least_sectors, most_sectors, AreFit, AreBlank, SomeWritten, IsImageFault, IsSizeFault};
ghost use Rattle.zs_session.specs.Images.{AreSectors, AreNew, AreFirstOf, AsksAll, AsksFirst, HeadCalls, BlankCalls, TestCalls, ReadsFirst};

use std::alloc::{AllocError, AllocFailed, Global};
use zs_io::{Bay, BayFault, Device};
use zs_lane::{Children, Lane, LaneFault};
use zs_script::Refusal;

/// The bytes of an image in which a label could lie.
const HEAD: u64 = 2048;

/// The greatest number of sectors of an image.
const MOST_SECTORS: u64 = 2_097_152;

/// Why images can't be made a new pool.
#[derive(Clone, Copy, Debug, PartialEq, Eq)]
pub enum ImageFault {
    /// They are not such images: Shape, NotBlank, TooSmall or TooLarge.
    Unfit(Refusal),
    /// The head of an image could not be read; its device's count of faults rose.
    Unread,
    /// Memory was wanting.
    Memory,
}

impl From<AllocError> for ImageFault {
    ghost use Rattle.zs_session.specs.declared.images.ImageFault.TheVariants.{Memory};

    ghost from_gives = { λ _ e. e ≡ Memory };

    fn from(_: AllocError) -> Self {
        ImageFault::Memory
    }
}

impl<T: Drop> From<AllocFailed<T>> for ImageFault {
    ghost use Rattle.zs_session.specs.declared.images.ImageFault.TheVariants.{Memory};

    ghost from_gives = { λ _ e. e ≡ Memory };

    fn from(_: AllocFailed<T>) -> Self {
        ImageFault::Memory
    }
}

/// Fetches the images of these names in their order, and puts each into a lane of its own in the list, which is empty. No
/// name is asked for twice, and none behind one that can't be had.
pub fn fetch_images<B: Bay>(
    alloc: Global,
    names: &[String],
    bay: &mut B,
    lanes: &mut Vec<Lane<B::Dev>>,
) -> Result<(), BayFault>
    requires { lanes.old.items ≡ [] }
    ensures left { OnOk result (B.left bay.old ≡ option_map (λ rest. devices_of lanes.new.items ++ rest) (B.left bay.new)) }
    ensures first { AreFirstOf (B.left bay.old) (devices_of lanes.new.items) }
    ensures count { OnOk result (length lanes.new.items ≡ length names.now) }
    ensures fewer { OnErr result (length lanes.new.items < length names.now) }
    ensures asked { OnOk result (AsksAll (map string_bytes names.now) (B.asked bay.old) (B.asked bay.new)) }
    ensures asked_cut { AsksFirst (map string_bytes names.now) (B.asked bay.old) (B.asked bay.new) }
    ensures new { AreNew B.Dev.faults lanes.new.items }
    ensures cause { HasCause (B.faults bay.old) (B.faults bay.new) result }
{
    for name in names {
        let device = match bay.fetch(name.as_str()) {
            Ok(device) => device,
            Err(fault) => return Err(fault),
        };
        match lanes.push(Lane::new(alloc, device)) {
            Ok(()) => {}
            Err(_) => return Err(BayFault::Memory),
        }
    }
    Ok(())
}

/// Whether the head of an image is blank.
fn is_blank<D: Device>(lanes: &mut Vec<Lane<D>>, dev: u8, buf: &mut [u8]) -> Result<bool, BayFault>
    requires device { dev < length lanes.old.items }
    requires size { length buf.old ≡ 2048 }
    ensures blank { IfOk result
        (λ blank. Told (told_at (of_each D.told lanes.old.items) dev)
        (λ bytes. blank ≡ is_zero (head_of (slice_index (of_each D.size lanes.old.items) dev) bytes))) }
    ensures calls { HeadCalls D.Device dev lanes.old.items lanes.new.items result }
{
    let len = size_at(lanes, usize::from(dev)).min(HEAD) as usize;
    let head = &mut buf[..len];
    match lanes.read(dev, 0, head) {
        Ok(_) => Ok(is_zero(head)),
        Err(LaneFault::Failed(_)) => Err(BayFault::Failed),
        Err(LaneFault::Memory) => Err(BayFault::Memory),
    }
}

/// Whether the bytes are all zero.
fn is_zero(bytes: &[u8]) -> bool
    ensures { result ≡ is_zero bytes.now }
{
    bytes.iter().all(|byte| *byte == 0)
}

/// Whether the head of each image is blank.
fn are_blank<D: Device>(
    alloc: Global,
    lanes: &mut Vec<Lane<D>>,
    width: u8,
) -> Result<bool, BayFault>
    requires { length lanes.old.items ≡ width }
    ensures blank { IfOk result (λ blank. blank ≡ true → AreBlank (of_each D.size lanes.old.items) (of_each D.told lanes.old.items)) }
    ensures written { IfOk result (λ blank. blank ≡ false → SomeWritten (of_each D.size lanes.old.items) (of_each D.told lanes.old.items)) }
    ensures heads { IfOk result (λ blank. blank ≡ true → ReadsFirst D.Device width lanes.old.items lanes.new.items) }
    ensures calls { BlankCalls D.Device lanes.old.items lanes.new.items result }
{
    let Ok(mut buf) = vec![in alloc; 0; HEAD as usize] else {
        return Err(BayFault::Memory);
    };
    are_blank_by(lanes, width, &mut buf)
}

/// The same, with a buffer for a head.
fn are_blank_by<D: Device>(
    lanes: &mut Vec<Lane<D>>,
    width: u8,
    buf: &mut [u8],
) -> Result<bool, BayFault>
    requires count { length lanes.old.items ≡ width }
    requires size { length buf.old ≡ 2048 }
    ensures blank { IfOk result (λ blank. blank ≡ true → AreBlank (of_each D.size lanes.old.items) (of_each D.told lanes.old.items)) }
    ensures written { IfOk result (λ blank. blank ≡ false → SomeWritten (of_each D.size lanes.old.items) (of_each D.told lanes.old.items)) }
    ensures heads { IfOk result (λ blank. blank ≡ true → ReadsFirst D.Device width lanes.old.items lanes.new.items) }
    ensures calls { BlankCalls D.Device lanes.old.items lanes.new.items result }
{
    for dev in 0..width {
        match is_blank(lanes, dev, buf) {
            Ok(true) => {}
            Ok(false) => return Ok(false),
            Err(fault) => return Err(fault),
        }
    }
    Ok(true)
}

/// The size of an image in bytes.
fn size_at<D: Device>(lanes: &[Lane<D>], i: usize) -> u64
    requires { i < length lanes.now }
    ensures { result ≡ slice_index (of_each D.size lanes.now) i }
{
    lanes[i].bytes()
}

/// Whether no image has too few sectors for that many blocks, and none too many.
fn test_sizes<D: Device>(lanes: &[Lane<D>], blocks: u32) -> Result<(), ImageFault>
    ensures least { OnOk result ((k : ℕ) → k < length lanes.now → least_sectors blocks ≤ slice_index (of_each D.size lanes.now) k / 512) }
    ensures most { OnOk result ((k : ℕ) → k < length lanes.now → slice_index (of_each D.size lanes.now) k / 512 ≤ most_sectors) }
    ensures unfit { (fault : Refusal) → IsErrOf result (ImageFault.Unfit fault) → IsSizeFault blocks (of_each D.size lanes.now) fault }
    ensures only { result ≢ Err ImageFault.Unread }
{
    let least = 8 + 2 * (128 + u64::from(blocks) / 4) + 32;
    for i in 0..lanes.len() {
        if size_at(lanes, i) / 512 < least {
            return Err(ImageFault::Unfit(Refusal::TooSmall));
        }
    }
    for i in 0..lanes.len() {
        if size_at(lanes, i) / 512 > MOST_SECTORS {
            return Err(ImageFault::Unfit(Refusal::TooLarge));
        }
    }
    Ok(())
}

/// The number of sectors of each image.
fn sectors_of<D: Device>(alloc: Global, lanes: &[Lane<D>]) -> Result<Vec<u32>, ImageFault>
    requires { (k : ℕ) → k < length lanes.now → slice_index (of_each D.size lanes.now) k / 512 ≤ most_sectors }
    ensures count { IfOk result (λ sectors. length sectors.items ≡ length lanes.now) }
    ensures sectors { IfOk result (λ sectors. (k : ℕ) → k < length lanes.now → slice_index sectors.items k ≡ slice_index (of_each D.size lanes.now) k / 512) }
    ensures memory { OnErr result (result ≡ Err ImageFault.Memory) }
{
    let mut sectors = Vec::new(alloc);
    for i in 0..lanes.len() {
        match sectors.push((size_at(lanes, i) / 512) as u32) {
            Ok(()) => {}
            Err(_) => return Err(ImageFault::Memory),
        }
    }
    Ok(sectors)
}

/// Tests whether these images can be made a new pool with one mirror of that width and that many blocks, and gives
/// the number of sectors of each. Shape is tested first, then NotBlank of each, then TooSmall of each, then
/// TooLarge of each.
pub fn test_images<D: Device>(
    alloc: Global,
    lanes: &mut Vec<Lane<D>>,
    width: u8,
    blocks: u32,
) -> Result<Vec<u32>, ImageFault>
    ensures fit { OnOk result (AreFit width blocks (of_each D.size lanes.old.items) (of_each D.told lanes.old.items)) }
    ensures sectors { IfOk result (λ sectors. AreSectors width blocks (length lanes.old.items) (of_each D.size lanes.old.items) sectors.items) }
    ensures unfit { (fault : Refusal) → IsErrOf result (ImageFault.Unfit fault) →
        IsImageFault width blocks (of_each D.size lanes.old.items) (of_each D.told lanes.old.items) fault }
    ensures calls { TestCalls D.Device lanes.old.items lanes.new.items result }
{
    if lanes.len() != usize::from(width) {
        return Err(ImageFault::Unfit(Refusal::Shape));
    }
    match are_blank(alloc, lanes, width) {
        Ok(true) => {}
        Ok(false) => return Err(ImageFault::Unfit(Refusal::NotBlank)),
        Err(BayFault::Failed) => return Err(ImageFault::Unread),
        Err(BayFault::Memory) => return Err(ImageFault::Memory),
    }
    match test_sizes(lanes, blocks) {
        Ok(()) => {}
        Err(fault) => return Err(fault),
    }
    match sectors_of(alloc, lanes) {
        Ok(sectors) => Ok(sectors),
        Err(fault) => Err(fault),
    }
}
