//! Sources, sinks, devices, bays and gates in memory: what each gives back, and what is left where one is told to fail.

use std::test::Fail;
use zs_io::{
    Bay, BayFault, Device, Failed, Gate, MemBay, MemDevice, MemSink, MemSource, NoGate, Point,
    Sink, Source, SureDevice,
};

#[test]
fn a_source_gives_its_bytes_and_fails_where_it_is_told_to(rt: HostRuntime) -> Result<(), Fail> {
    let alloc = rt.alloc();
    let mut source = MemSource::new(
        Vec::from_slice(alloc, b"abcde")?,
        Vec::from_slice(alloc, &[1])?,
    );
    let mut buf = [0; 4];
    assert_eq!(rt; source.read(&mut buf), Ok(4));
    assert_eq!(rt; buf, *b"abcd");
    assert_eq!(rt; source.read(&mut buf), Err(Failed));
    assert_eq!(rt; source.read(&mut buf), Ok(1));
    assert_eq!(rt; buf[0], b'e');
    assert_eq!(rt; source.read(&mut buf), Ok(0));
    Ok(())
}

#[test]
fn a_sink_keeps_what_is_put_and_nothing_of_a_call_that_fails(rt: HostRuntime) -> Result<(), Fail> {
    let alloc = rt.alloc();
    let mut sink = MemSink::new(alloc, Vec::from_slice(alloc, &[1])?);
    assert_eq!(rt; sink.put(b"ab"), Ok(()));
    assert_eq!(rt; sink.put(b"cd"), Err(Failed));
    assert_eq!(rt; sink.put(b"ef"), Ok(()));
    assert_eq!(rt; sink.bytes(), b"abef".as_slice());
    Ok(())
}

#[test]
fn a_torn_write_leaves_its_first_half(rt: HostRuntime) -> Result<(), Fail> {
    let alloc = rt.alloc();
    let mut device = MemDevice::new(
        alloc,
        Vec::from_slice(alloc, &[9; 8])?,
        Vec::from_slice(alloc, &[1])?,
        4,
        true,
    );
    assert_eq!(rt; device.bytes(), 8);
    assert_eq!(rt; device.write_at(0, &[1, 2]), Ok(()));
    assert_eq!(rt; device.write_at(4, &[5, 6, 7, 8]), Err(BayFault::Failed));
    assert_eq!(rt; device.sync(), Ok(()));
    let mut buf = [0; 4];
    assert_eq!(rt; device.read_at(3, &mut buf), Ok(()));
    assert_eq!(rt; buf, [9, 5, 6, 9]);
    assert_eq!(rt; device.sync(), Err(BayFault::Failed));
    assert_eq!(rt;
        device.into_bytes().as_slice(),
        [1, 2, 9, 9, 5, 6, 9, 9].as_slice()
    );
    Ok(())
}

#[test]
fn a_sure_device_gives_back_what_was_written(rt: HostRuntime) -> Result<(), Fail> {
    let alloc = rt.alloc();
    let mut device = SureDevice::new(alloc, Vec::from_slice(alloc, &[0; 4])?);
    assert_eq!(rt; device.bytes(), 4);
    assert_eq!(rt; device.write_at(1, &[7, 8]), Ok(()));
    assert_eq!(rt; device.sync(), Ok(()));
    let mut buf = [0; 3];
    assert_eq!(rt; device.read_at(0, &mut buf), Ok(()));
    assert_eq!(rt; buf, [0, 7, 8]);
    assert_eq!(rt; device.into_bytes().as_slice(), [0, 7, 8, 0].as_slice());
    Ok(())
}

#[test]
fn a_bay_gives_its_devices_in_order(rt: HostRuntime) -> Result<(), Fail> {
    let alloc = rt.alloc();
    let one = Vec::from_slice(alloc, &[1])?;
    let two = Vec::from_slice(alloc, &[2])?;
    let first = MemDevice::new(alloc, one, Vec::new(alloc), u64::MAX, false);
    let second = MemDevice::new(alloc, two, Vec::new(alloc), u64::MAX, false);
    let devices = Vec::from_array(alloc, [first, second])?;
    let mut bay = MemBay::new(devices);
    for byte in [1, 2] {
        match bay.fetch("image") {
            Ok(device) => assert_eq!(rt; device.into_bytes().as_slice(), [byte].as_slice()),
            Err(_) => assert!(rt; false),
        }
    }
    assert!(rt; bay.fetch("image").is_err());
    Ok(())
}

#[test]
fn a_bay_keeps_the_names_that_it_was_asked_for(rt: HostRuntime) -> Result<(), Fail> {
    let alloc = rt.alloc();
    let bytes = Vec::from_slice(alloc, &[1])?;
    let device = MemDevice::new(alloc, bytes, Vec::new(alloc), u64::MAX, false);
    let mut bay = MemBay::new(Vec::from_array(alloc, [device])?);
    assert!(rt; bay.asked().is_empty());
    assert!(rt; bay.fetch("first.img").is_ok());
    assert_eq!(rt; bay.fetch("second.img").err(), Some(BayFault::Failed));
    match bay.asked() {
        [first, second] => {
            assert_eq!(rt; first.as_str(), "first.img");
            assert_eq!(rt; second.as_str(), "second.img");
        }
        _ => assert!(rt; false),
    }
    Ok(())
}

#[test]
fn a_gate_that_stops_nobody_returns(rt: HostRuntime) {
    NoGate.at(Point::Committing);
    assert_eq!(rt; Point::Reading(1), Point::Reading(1));
}
