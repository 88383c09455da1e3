use carol_event::Event;
use carol_vault_image::first_record;
use std::alloc::Global;
use std::test::Fail;

// How many bytes the record in front has, where it is of a release by session 7.
fn release_size(alloc: Global, bytes: &[u8]) -> Option<usize> {
    let taken = first_record(alloc, bytes)?;
    match taken.event {
        Event::Release { session: 7 } => Some(taken.used),
        _ => None,
    }
}

// A record is an open gate, the length of a line in two bytes, the higher one first, and the line.
#[test]
fn a_record_is_read_behind_an_open_gate(rt: HostRuntime) -> Result<(), Fail> {
    let alloc = rt.alloc();
    let rows: [(&[u8], Option<usize>); 6] = [
        (b"\x01\x00\x0arelease 7\n", Some(13)),
        (b"\x01\x00\x0arelease 7\n\x00", Some(13)),
        (b"\x00\x00\x0arelease 7\n\x00", None),
        (b"\x01\x0a\x00release 7\n\x00", None),
        (b"\x01\x00\x0brelease 7\n", None),
        (b"\x01\x00\x09release 7\n", None),
    ];
    for (bytes, size) in &rows {
        assert_eq!(rt; release_size(alloc, *bytes), *size);
    }
    Ok(())
}
