use mesh_outside::{Depot, FileDepot, MemSink, OutFault, Sink, StdSink, read_input, write_file};
use std::io::Write;
use std::os::fd::AsRawFd;
use std::os::unix::fs::symlink;
use std::test::Fail as TestFail;
use std::{env, fs, io, process};

// A name for a file of a test, in the system's folder for such.
fn name_of(rt: &HostRuntime, test: &str) -> Result<String, TestFail> {
    let folder = env::temp_dir(rt)?;
    let folder = folder.as_path().to_str().ok_or("no text")?;
    Ok(format!(in rt.alloc();
        "{folder}/mesh_outside.{}.{test}",
        process::id(rt.process())
    )?)
}

#[test]
fn bytes_pass_through_a_real_file(rt: HostRuntime) -> Result<(), TestFail> {
    let alloc = rt.alloc();
    let name = name_of(&rt, "bytes")?;
    let mut depot = FileDepot::new(&rt);
    write_file(&mut depot, name.as_str(), b"some bytes")?;
    let bytes = read_input(alloc, &mut depot, name.as_str(), 100)?;
    let start = read_input(alloc, &mut depot, name.as_str(), 3)?;
    fs::remove_file(&rt, name.as_str())?;
    assert_eq!(rt; bytes.as_slice(), b"some bytes".as_slice());
    assert_eq!(rt; start.as_slice(), b"some".as_slice());
    let absent = read_input(alloc, &mut depot, name.as_str(), 100);
    assert!(rt; matches!(&absent, Err(OutFault::Failed)));
    Ok(())
}

// A former file of the name is gone, and so is one that was begun and not finished.
#[test]
fn a_former_file_is_replaced(rt: HostRuntime) -> Result<(), TestFail> {
    let alloc = rt.alloc();
    let first = name_of(&rt, "first")?;
    let second = name_of(&rt, "second")?;
    let mut depot = FileDepot::new(&rt);
    write_file(&mut depot, first.as_str(), b"more than the second time")?;
    depot.begin(second.as_str())?;
    write_file(&mut depot, first.as_str(), b"less")?;
    let bytes = read_input(alloc, &mut depot, first.as_str(), 100)?;
    let begun = read_input(alloc, &mut depot, second.as_str(), 100)?;
    fs::remove_file(&rt, first.as_str())?;
    fs::remove_file(&rt, second.as_str())?;
    assert_eq!(rt; bytes.as_slice(), b"less".as_slice());
    assert_eq!(rt; begun.len(), 0);
    Ok(())
}

// A pipe cannot be moved to a place; the depot opens it once, and reads on.
#[test]
fn a_pipe_is_read(rt: HostRuntime) -> Result<(), TestFail> {
    let alloc = rt.alloc();
    let (reader, writer) = io::pipe(&rt)?;
    fill(writer)?;
    let name = format!(in alloc; "/proc/self/fd/{}", reader.as_raw_fd())?;
    let mut depot = FileDepot::new(&rt);
    let bytes = read_input(alloc, &mut depot, name.as_str(), 100)?;
    assert_eq!(rt; bytes.as_slice(), b"some bytes".as_slice());
    Ok(())
}

fn fill<W: Write + Drop>(writer: W) -> io::Result<()> {
    let mut writer = writer;
    writer.write_all(b"some bytes")
}

// The system answers that it cannot keep what was written to a device.
#[test]
fn what_the_system_does_not_keep_is_a_failure(rt: HostRuntime) -> Result<(), TestFail> {
    let name = name_of(&rt, "device")?;
    symlink(&rt, "/dev/null", name.as_str())?;
    let mut depot = FileDepot::new(&rt);
    let begun = depot.begin(name.as_str());
    let appended = depot.append(b"some bytes");
    let finished = depot.finish();
    fs::remove_file(&rt, name.as_str())?;
    assert_eq!(rt; begun, Ok(()));
    assert_eq!(rt; appended, Ok(()));
    assert_eq!(rt; finished, Err(OutFault::Failed));
    Ok(())
}

#[test]
fn bytes_pass_to_standard_output(rt: HostRuntime) -> Result<(), TestFail> {
    let mut out = StdSink::new(&rt);
    out.print(b"")?;
    out.print(b"printed\n")?;
    Ok(())
}

// A sink in memory fails at its second call.
#[test]
fn a_memory_sink_fails_where_it_is_told(rt: HostRuntime) -> Result<(), TestFail> {
    let mut out = MemSink::new(rt.alloc(), 2);
    out.print(b"one ")?;
    assert_eq!(rt; out.print(b"two "), Err(OutFault::Failed));
    out.print(b"three")?;
    assert_eq!(rt; out.printed(), b"one three".as_slice());
    Ok(())
}
