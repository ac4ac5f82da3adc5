//! A caller of the library: it opens a file and prints a segment.
use crate::serving::file_of_four;
use std::alloc::Global;
use std::fs;
use std::test::Fail;
use vx_base::{FileOpener, MemSink, NoCache, Opener, Sink, write_flushed};
use vx_data::VortexSession;
use vx_file::{Reply, ServeOptions, Step, serve};

// Prints the first segment of a file, in hexadecimal.
fn print_first<S: Sink>(rt: &HostRuntime, path: &str, out: &mut S) -> Result<(), Fail> {
    let alloc: Global = rt.alloc();
    let mut files = FileOpener::new(*rt);
    let mut reader = files.open_named(alloc, path).ok().ok_or("not opened")?;
    let script = [Step::Register(0), Step::Poll(0)];
    let options = ServeOptions::new(VortexSession::new(alloc)?);
    let mut cache = NoCache;
    let served = serve(alloc, options, &mut cache, &mut reader, &script)
        .ok()
        .ok_or("not served")?;
    files.take_back(alloc, path, reader)?;
    let last = served.replies.iter().last().ok_or("no reply")?;
    if let Reply::Ready(bytes) = last.reply() {
        let text = hex::encode(alloc, bytes.as_slice())?;
        write_flushed(alloc, out, text.as_bytes())
            .ok()
            .ok_or("not written")?;
    }
    Ok(())
}

#[test]
fn the_first_segment_of_a_file_is_printed(rt: HostRuntime) -> Result<(), Fail> {
    let process = std::process::id(rt.process());
    let path = format!(in rt.alloc(); "/tmp/vx_example_{process}")?;
    fs::write(&rt, path.as_str(), file_of_four(rt.alloc())?.as_slice())?;
    let mut out = MemSink::new(rt.alloc(), Vec::new(rt.alloc()));
    print_first(&rt, path.as_str(), &mut out)?;
    let printed = out.into_bytes();
    assert!(rt; printed.as_slice() == b"010001000000020000000300000004000000".as_slice());
    fs::remove_file(&rt, path.as_str())?;
    Ok(())
}
