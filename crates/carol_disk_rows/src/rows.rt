use carol_disk::{Disk, MemoryDisk, append, read_whole, settle};
use std::alloc::{AllocError, Global};
use std::test::Fail;

// What is read after a crash of a disk that stops at this call, on which a part is put behind a
// shut gate.
fn left(alloc: Global, stop: u64) -> Result<Vec<u8>, Fail> {
    let mut disk = MemoryDisk::new(vec![in alloc; 0u8]?, Some(stop));
    let _outcome = append(&mut disk, 0, b"ab0");
    let mut disk = disk.crash();
    Ok(read_whole(alloc, &mut disk)?)
}

#[test]
fn a_part_counts_whole_or_not_at_all(rt: HostRuntime) -> Result<(), Fail> {
    let alloc = rt.alloc();
    assert_eq!(rt; left(alloc, 0)?.as_slice(), b"\x00".as_slice());
    assert_eq!(rt; left(alloc, 1)?.as_slice(), b"\x00".as_slice());
    assert_eq!(rt; left(alloc, 2)?.as_slice(), b"\x00ab0".as_slice());
    assert_eq!(rt; left(alloc, 3)?.as_slice(), b"\x00ab0".as_slice());
    assert_eq!(rt; left(alloc, 4)?.as_slice(), b"\x01ab0".as_slice());
    Ok(())
}

#[test]
fn a_file_is_ended_behind_its_front(rt: HostRuntime) -> Result<(), Fail> {
    let alloc = rt.alloc();
    let mut disk = MemoryDisk::new(vec![in alloc; 1u8, 7, 0, 9]?, None);
    settle(&mut disk, 2, 4)?;
    assert_eq!(rt;
        read_whole(alloc, &mut disk)?.as_slice(),
        b"\x01\x07\x00".as_slice()
    );
    Ok(())
}
