use outside::names::Outside;
use outside::{Sink, SinkFailed, read_text, write_all};
use outside_real::RealOutside;
use std::test::Fail;
use std::{env, fs, process};

#[test]
fn writes_and_reads_a_file(rt: HostRuntime) -> Result<(), Fail> {
    let alloc = rt.alloc();
    let name = format!(in alloc; "outside_real_{}", process::id(rt.process()))?;
    let path = env::temp_dir(&rt)?.join(alloc, name.as_str())?;
    let mut outside = RealOutside::new(rt.alloc(), &rt);
    assert!(rt; outside.open_in(path.as_str()).is_none());
    assert_eq!(rt; outside.faults(), 1);

    for text in [b"a longer text".as_slice(), b"text"] {
        let mut sink = outside.open_out(path.as_str()).ok_or("out")?;
        write_all(&mut sink, text)?;
        outside.close_out(sink);
        let mut source = outside.open_in(path.as_str()).ok_or("in")?;
        let read = read_text(alloc, &mut source, 99)?.map_err(|_| "read")?;
        assert_eq!(rt; read.as_slice(), text);
        outside.close_in(source);
    }
    fs::remove_file(&rt, path.as_str())?;
    assert_eq!(rt; outside.faults(), 1);
    Ok(())
}

#[test]
fn counts_a_full_device(rt: HostRuntime) -> Result<(), Fail> {
    let mut outside = RealOutside::new(rt.alloc(), &rt);
    let mut sink = outside.open_out("/dev/full").ok_or("out")?;
    assert_eq!(rt; write_all(&mut sink, b"text"), Err(SinkFailed));
    assert_eq!(rt; sink.faults(), 1);
    outside.close_out(sink);
    assert_eq!(rt; outside.faults(), 1);
    Ok(())
}
