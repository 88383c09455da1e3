use crate::calls::{BANK, call, head, scene_input};
use carol_tool::Status;
use std::test::Fail;

const SESSIONS: &[u8] = b"session at 0 {
withdraw(80);
}
session at 1 {
withdraw(50);
}
";

const FULL: &[u8] = b"go 0;
go 0;
go 1;
go 1;
go 0;
go 1;
go 1;
go 0;
go 0;
go 0;
go 0;";

const FULL_REPORT: &[u8] = b"transcript
grant 0 0
query 0 0 100
grant 1 0
query 1 0 100
refuse 0 barred 1 0
issue 1 0 0:-50
return 1 50
deliver 1 0 0
grant 0 0
query 0 0 50
return 0 0
results
result 0 0 value 0
result 1 0 value 50
stores
store 0 50
store 1 50
global 50
end 11
";

// The end of an input.
const LAST: &[u8] = b" end\n";

// Each reading of the input fails, the last one too, which is to find its end.
#[test]
fn tells_each_read_fault(rt: HostRuntime) -> Result<(), Fail> {
    let scene = head(rt.alloc(), 2, 2)?;
    let parts = [BANK, scene.as_bytes(), SESSIONS, b"end script ", FULL, LAST];
    for number in 0..7u64 {
        let answer = call(&rt, b"step", &parts, &[number], 4096, &[])?;
        assert_eq!(rt; answer.status, Status::ReadFault);
        assert_eq!(rt; answer.sink.taken(), b"read fault\n".as_slice());
    }
    Ok(())
}

#[test]
fn tells_each_write_fault(rt: HostRuntime) -> Result<(), Fail> {
    let scene = head(rt.alloc(), 2, 2)?;
    let parts = [BANK, scene.as_bytes(), SESSIONS, b"end script ", FULL, LAST];
    for number in 0..50u64 {
        let answer = call(&rt, b"step", &parts, &[], 4096, &[number])?;
        assert_eq!(rt; answer.status, Status::WriteFault);
        assert!(rt; FULL_REPORT.starts_with(answer.sink.taken()));
        assert_eq!(rt; answer.sink.taken().len(), 5 * number as usize);
    }
    let answer = call(&rt, b"step", &parts, &[], 10, &[])?;
    assert_eq!(rt; answer.status, Status::WriteFault);
    assert_eq!(rt; answer.sink.taken(), b"transcript".as_slice());
    Ok(())
}

// Each reading of the input fails, the last one too, and each writing of what is said.
#[test]
fn tells_each_fault_of_its_ends(rt: HostRuntime) -> Result<(), Fail> {
    let input = scene_input(rt.alloc(), BANK, (2, 2), SESSIONS)?;
    let parts = [input.as_slice(), FULL_REPORT];
    for number in 0..8u64 {
        let answer = call(&rt, b"audit", &parts, &[number], 4096, &[])?;
        assert_eq!(rt; answer.status, Status::ReadFault);
        assert_eq!(rt; answer.sink.taken(), b"read fault\n".as_slice());
    }
    for number in 0..3u64 {
        let answer = call(&rt, b"audit", &parts, &[], 4096, &[number])?;
        assert_eq!(rt; answer.status, Status::WriteFault);
        assert!(rt; b"genuine 11\n".starts_with(answer.sink.taken()));
        assert_eq!(rt; answer.sink.taken().len(), 5 * number as usize);
    }
    Ok(())
}

// The source of the smallest program fails at its second call, and so does the sink, which has the
// text's front then.
#[test]
fn tells_a_fault_in_mid_stream(rt: HostRuntime) -> Result<(), Fail> {
    let counter = b"program\ncounter c = 0;\ninvariant true;\nend\n".as_slice();
    let long = [counter, b"#", &[b' '; 100]];
    let answer = call(&rt, b"check", &long, &[1], 4096, &[])?;
    assert_eq!(rt; answer.status, Status::ReadFault);
    assert_eq!(rt; answer.sink.taken(), b"read fault\n".as_slice());
    let answer = call(&rt, b"check", &[counter], &[], 4096, &[1])?;
    assert_eq!(rt; answer.status, Status::WriteFault);
    assert_eq!(rt; answer.sink.taken(), b"accep".as_slice());
    Ok(())
}
