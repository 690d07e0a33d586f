//! Labels on devices in memory.

ghost use Rattle.std.specs.Prelude.{◌≡◌, ◌≤◌, true, length, vec_len, IfOk};
ghost use Rattle.zs_sum.specs.Sum.{sha256};
ghost use Rattle.zs_label.specs.Label.{is_valid};

use std::alloc::{AllocError, Global};
use std::test::Fail;
use zs_io::{Device, MemDevice};
use zs_label::{Label, LabelFault, best_label, label_write, put_label, read_slot};
use zs_lane::{Lane, LaneFault, Mark};
use zs_sum::sum;

/// A label of that group on one of two devices of a mirror.
fn label(number: u32, txg: u64) -> Label {
    Label {
        pool: 7,
        number,
        devices: 2,
        width: 2,
        blocks: 64,
        limit: 8,
        every: 4,
        length: 100,
        txg,
        sum: [3; 32],
    }
}

/// A label of that group on one of two devices, each a mirror of its own.
fn lone(number: u32, txg: u64) -> Label {
    Label {
        width: 1,
        ..label(number, txg)
    }
}

/// A label of that group on one of four devices of two mirrors.
fn four(number: u32, txg: u64) -> Label {
    Label {
        devices: 4,
        ..label(number, txg)
    }
}

/// Puts a label into the slot of its group, and opens it.
fn put(image: &mut [u8], label: &Label)
    requires { length image.old ≡ 2048 }
    ensures { length image.new ≡ 2048 }
{
    put_at(image, 1024 * (label.txg % 2) as usize, label, 1);
}

/// Puts a label into the slot that begins there, with this gate.
fn put_at(image: &mut [u8], at: usize, label: &Label, gate: u8)
    requires long { length image.old ≡ 2048 }
    requires at { at ≤ 1024 }
    ensures { length image.new ≡ 2048 }
{
    image[at..at + 512].copy_from_slice(&label_write(label));
    image[at + 512] = gate;
}

/// Four sectors with these labels.
fn image(alloc: Global, labels: [Label; 2]) -> Result<Vec<u8>, AllocError>
    ensures { IfOk result (λ v. length v.items ≡ 2048) }
{
    let mut image = zeros(alloc, 2048)?;
    put(&mut image, &labels[0]);
    put(&mut image, &labels[1]);
    Ok(image)
}

/// A lane with these bytes, whose calls fail from that number on.
fn lane_with(alloc: Global, bytes: Vec<u8>, from: u64) -> Lane<MemDevice>
    ensures { ⟦<MemDevice as Device>⟧.size result.device ≡ length bytes.items }
{
    Lane::new(
        alloc,
        MemDevice::new(alloc, bytes, Vec::new(alloc), from, false),
    )
}

/// The best label of two images; the reads of the first one fail from that call on.
fn best(
    alloc: Global,
    first: Vec<u8>,
    second: Vec<u8>,
    from: u64,
) -> Result<Result<(Label, u32), LabelFault>, AllocError>
    requires first { length first.items ≡ 2048 }
    requires second { length second.items ≡ 2048 }
{
    let first = lane_with(alloc, first, from);
    let second = lane_with(alloc, second, u64::MAX);
    let mut set = Vec::from_array(alloc, [first, second])?;
    Ok(best_label(alloc, &mut set, 2))
}

/// The best label of two images with two labels each.
fn best_of(
    alloc: Global,
    first: [Label; 2],
    second: [Label; 2],
) -> Result<Result<(Label, u32), LabelFault>, AllocError> {
    let first = image(alloc, first)?;
    let second = image(alloc, second)?;
    best(alloc, first, second, u64::MAX)
}

#[test]
fn the_newest_label_is_the_best(rt: HostRuntime) -> Result<(), Fail> {
    let alloc = rt.alloc();
    let best = best_of(
        alloc,
        [label(0, 4), label(0, 5)],
        [label(1, 4), label(1, 5)],
    )?;
    assert_eq!(rt; best, Ok((label(0, 5), 3)));
    let best = best_of(
        alloc,
        [label(0, 4), label(0, 5)],
        [label(1, 6), label(1, 5)],
    )?;
    assert_eq!(rt; best, Ok((label(1, 6), 2)));
    Ok(())
}

#[test]
fn an_image_that_is_not_read_is_left_out(rt: HostRuntime) -> Result<(), Fail> {
    let alloc = rt.alloc();
    let first = image(alloc, [label(0, 4), label(0, 5)])?;
    let second = image(alloc, [label(1, 4), label(1, 5)])?;
    assert_eq!(rt; best(alloc, first, second, 0)?, Ok((label(1, 5), 2)));
    Ok(())
}

#[test]
fn another_version_is_told_first(rt: HostRuntime) -> Result<(), Fail> {
    let alloc = rt.alloc();
    let first = image(alloc, [label(0, 4), label(0, 5)])?;
    let mut second = zeros(alloc, 2048)?;
    put(&mut second, &label(1, 4));
    second[11] = 2;
    assert_eq!(rt;
        best(alloc, first, second, u64::MAX)?,
        Err(LabelFault::Version)
    );
    Ok(())
}

#[test]
fn blank_images_have_no_label(rt: HostRuntime) -> Result<(), Fail> {
    let alloc = rt.alloc();
    let first = zeros(alloc, 2048)?;
    let second = zeros(alloc, 2048)?;
    assert_eq!(rt;
        best(alloc, first, second, u64::MAX)?,
        Err(LabelFault::NoLabel)
    );
    Ok(())
}

#[test]
fn images_of_two_pools_are_told(rt: HostRuntime) -> Result<(), Fail> {
    let alloc = rt.alloc();
    let other = Label {
        pool: 8,
        ..label(1, 4)
    };
    let best = best_of(alloc, [label(0, 4), label(0, 5)], [other, label(1, 5)])?;
    assert_eq!(rt; best, Err(LabelFault::OtherPool));
    let best = best_of(
        alloc,
        [label(1, 4), label(1, 5)],
        [label(0, 4), label(0, 5)],
    )?;
    assert_eq!(rt; best, Err(LabelFault::OtherPool));
    Ok(())
}

#[test]
fn a_missing_image_is_told(rt: HostRuntime) -> Result<(), Fail> {
    let alloc = rt.alloc();
    let best = best_of(alloc, [four(0, 4), four(0, 5)], [four(1, 4), four(1, 5)])?;
    assert_eq!(rt; best, Err(LabelFault::ImageCount));
    Ok(())
}

#[test]
fn two_records_of_one_group_are_told(rt: HostRuntime) -> Result<(), Fail> {
    let alloc = rt.alloc();
    let other = Label {
        sum: [4; 32],
        ..label(1, 5)
    };
    let best = best_of(alloc, [label(0, 4), label(0, 5)], [label(1, 4), other])?;
    assert_eq!(rt; best, Err(LabelFault::Split));
    Ok(())
}

#[test]
fn a_mirror_without_a_label_is_told(rt: HostRuntime) -> Result<(), Fail> {
    let alloc = rt.alloc();
    let first = image(alloc, [lone(0, 4), lone(0, 5)])?;
    let second = zeros(alloc, 2048)?;
    assert_eq!(rt;
        best(alloc, first, second, u64::MAX)?,
        Err(LabelFault::VdevMissing)
    );
    let first = image(alloc, [lone(0, 4), lone(0, 5)])?;
    let second = image(alloc, [lone(1, 2), lone(1, 3)])?;
    assert_eq!(rt; best(alloc, first, second, u64::MAX)?, Ok((lone(0, 5), 1)));
    Ok(())
}

/// A label of group 5 for a record of 100 bytes, on the only device of a pool.
#[tactic(auto, unfolding(zs_label::specs::Label::is_valid))]
fn label_for(rec: &[u8]) -> Label
    requires { length rec.now ≡ 100 }
    ensures valid { is_valid result ≡ true }
    ensures number { result.number ≡ 0 }
    ensures blocks { result.blocks ≡ 64 }
    ensures long { result.length ≡ length rec.now }
    ensures sum { result.sum ≡ sha256 rec.now }
{
    Label {
        pool: 7,
        number: 0,
        devices: 1,
        width: 1,
        blocks: 64,
        limit: 8,
        every: 4,
        length: 100,
        txg: 5,
        sum: sum(rec),
    }
}

/// So many zeros.
fn zeros(alloc: Global, n: usize) -> Result<Vec<u8>, AllocError>
    ensures { IfOk result (λ v. length v.items ≡ n) }
{
    let zeros = vec![in alloc; 0; n]?;
    Ok(zeros)
}

/// A record of 100 bytes, its label, and the device after both were put, with the answer.
fn put_on(
    alloc: Global,
    rec: &[u8],
    from: u64,
) -> Result<(Vec<Lane<MemDevice>>, Result<u64, LaneFault>), AllocError>
    requires { length rec.now ≡ 100 }
    ensures { IfOk result (λ r. vec_len r.0 ≡ 1) }
{
    let bytes = zeros(alloc, 512 * 296)?;
    let lane = lane_with(alloc, bytes, from);
    let mut set = Vec::from_array(alloc, [lane])?;
    let label = label_for(rec);
    let answer = put_label(&mut set, 0, &label, rec);
    Ok((set, answer))
}

#[test]
fn a_label_is_written_where_the_layout_says(rt: HostRuntime) -> Result<(), Fail> {
    let alloc = rt.alloc();
    let rec = [9; 100];
    let (mut set, answer) = put_on(alloc, &rec, u64::MAX)?;
    assert_eq!(rt; answer, Ok(6));
    let label = label_for(&rec);
    let body = label_write(&label);
    let marks = [
        Mark::Wrote(1536, 1, sum(&[0])),
        Mark::Synced,
        Mark::Wrote(512 * (8 + 144), 100, sum(&rec)),
        Mark::Wrote(1024, 512, sum(&body)),
        Mark::Synced,
        Mark::Wrote(1536, 1, sum(&[1])),
        Mark::Synced,
    ];
    assert_eq!(rt; set[0].journal(), marks.as_slice());
    match set.pop() {
        None => assert!(rt; false),
        Some(lane) => {
            let bytes = lane.into_device().into_bytes();
            assert!(rt; bytes.len() >= 2048);
            assert_eq!(rt; read_slot(&bytes, 1), Some(label));
            assert_eq!(rt; read_slot(&bytes, 0), None);
        }
    }
    Ok(())
}

#[test]
fn a_call_that_fails_is_the_last(rt: HostRuntime) -> Result<(), Fail> {
    let alloc = rt.alloc();
    let rec = [9; 100];
    for from in 0..7 {
        let (set, answer) = put_on(alloc, &rec, from)?;
        assert_eq!(rt; answer, Err(LaneFault::Failed(from)));
        assert_eq!(rt; set[0].journal().len() as u64, from + 1);
        assert_eq!(rt; set[0].journal().last(), Some(&Mark::Failed));
    }
    Ok(())
}

/// Whether the slot of group 5 holds a label of this length.
fn is_found(rt: HostRuntime, length: u32) -> Result<bool, Fail> {
    let alloc = rt.alloc();
    let mut slots = zeros(alloc, 2048)?;
    put(
        &mut slots,
        &Label {
            length,
            ..label(0, 5)
        },
    );
    Ok(read_slot(&slots, 1).is_some())
}

#[test]
fn a_record_that_does_not_fit_its_slot_has_no_label(rt: HostRuntime) -> Result<(), Fail> {
    assert!(rt; is_found(rt, 512 * 144)?);
    assert!(rt; !is_found(rt, 512 * 144 + 1)?);
    assert!(rt; !is_found(rt, 0)?);
    Ok(())
}

#[test]
fn a_label_in_the_other_slot_is_none(rt: HostRuntime) -> Result<(), Fail> {
    let alloc = rt.alloc();
    let mut slots = zeros(alloc, 2048)?;
    put_at(&mut slots, 0, &label(0, 5), 1);
    assert_eq!(rt; read_slot(&slots, 0), None);
    put_at(&mut slots, 0, &label(0, 6), 1);
    assert_eq!(rt; read_slot(&slots, 0), Some(label(0, 6)));
    put_at(&mut slots, 0, &label(0, 6), 0);
    assert_eq!(rt; read_slot(&slots, 0), None);
    Ok(())
}
