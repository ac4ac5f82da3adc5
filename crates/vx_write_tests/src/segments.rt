use std::alloc::Global;
use std::test::*;
use vx_base::{Alignment, ByteBuffer, MemSink, SegmentId, Sink};
use vx_write::*;

// A buffer of so many bytes of one value, with this alignment.
fn buffer(alloc: Global, byte: u8, count: usize, exponent: u8) -> Result<ByteBuffer, Fail> {
    let bytes = vec![in alloc; byte; count]?;
    Ok(ByteBuffer::from_vec(alloc, bytes, Alignment::new(exponent)?)?)
}

#[test]
fn places_segments(rt: HostRuntime) -> Result<(), Fail> {
    let alloc = rt.alloc();
    let mut out = MemSink::new(alloc, Vec::new(alloc));
    let mut segments = BufferedSegmentSink::new(alloc, 4)?;
    let first = vec![in alloc; buffer(alloc, 7, 10, 3)?]?;
    assert_eq!(rt; segments.write(alloc, &mut out, &first)?, SegmentId(0));
    assert_eq!(rt; segments.byte_offset(), 18);
    let second = vec![in alloc; buffer(alloc, 8, 2, 2)?, buffer(alloc, 9, 1, 4)?]?;
    assert_eq!(rt; segments.write(alloc, &mut out, &second)?, SegmentId(1));
    assert_eq!(rt; segments.write(alloc, &mut out, &[])?, SegmentId(2));
    let told = format!(in alloc; "{:?}", segments.segment_specs())?;
    let bytes = out.into_bytes();
    assert_eq!(rt; bytes.len(), 19);
    assert_eq!(rt; bytes.get(..5).ok_or("short")?, [0, 0, 0, 0, 7].as_slice());
    assert_eq!(rt;
        bytes.get(13..).ok_or("short")?,
        [7, 0, 0, 8, 8, 9].as_slice()
    );
    assert_eq!(rt;
        told.as_str(),
        "[SegmentSpec { offset: 8, length: 10, alignment: Alignment { exponent: 3 } }, \
         SegmentSpec { offset: 20, length: 3, alignment: Alignment { exponent: 2 } }, \
         SegmentSpec { offset: 23, length: 0, alignment: Alignment { exponent: 0 } }]"
    );
    Ok(())
}

#[test]
fn refused_segments_leave_no_trace(rt: HostRuntime) -> Result<(), Fail> {
    let alloc = rt.alloc();
    let mut out = MemSink::new(alloc, vec![in alloc; 1]?);
    let mut segments = BufferedSegmentSink::new(alloc, 4)?;
    let buffers = vec![in alloc; buffer(alloc, 7, 10, 3)?]?;
    let answer = segments.write(alloc, &mut out, &buffers);
    assert_eq!(rt; answer.err(), Some(vx_footer::WriteError::WriteFault));
    assert_eq!(rt; segments.byte_offset(), 4);
    assert!(rt; segments.segment_specs().is_empty());
    assert_eq!(rt; out.into_bytes().len(), 4);
    let mut out = MemSink::new(alloc, Vec::new(alloc));
    let mut segments = BufferedSegmentSink::new(alloc, u64::MAX - 9)?;
    let answer = segments.write(alloc, &mut out, &buffers);
    assert_eq!(rt; answer.err(), Some(vx_footer::WriteError::OffsetOverflow));
    assert_eq!(rt; out.into_bytes().len(), 0);
    Ok(())
}

#[test]
fn counts_what_a_sink_takes(rt: HostRuntime) -> Result<(), Fail> {
    let alloc = rt.alloc();
    let mut out = CountingVortexWrite::new(MemSink::new(alloc, vec![in alloc; 1]?));
    assert_eq!(rt; out.write(alloc, &[1, 2, 3])?, 3);
    assert!(rt; out.write(alloc, &[4]).is_err());
    out.flush()?;
    assert_eq!(rt; out.bytes_written(), 3);
    assert_eq!(rt; out.into_inner().into_bytes().len(), 3);
    Ok(())
}
