use crate::footers::{TAIL, file, read};
use std::alloc::Global;
use std::test::*;
use vx_base::ByteBuffer;
use vx_data::LayoutContext;
use vx_footer::*;

// What writes the footer of the file of four numbers.
fn serializer(alloc: Global) -> Result<FooterSerializer, Fail> {
    let bytes = file(alloc)?;
    let footer = read(alloc, bytes.as_slice())?.ok_or("no footer")?;
    Ok(footer.into_serializer(alloc).with_offset(26))
}

fn joined(alloc: Global, buffers: &[ByteBuffer]) -> Result<Vec<u8>, Fail> {
    let mut bytes = Vec::new(alloc);
    for buffer in buffers {
        bytes.extend_from_slice(buffer.as_slice())?;
    }
    Ok(bytes)
}

#[test]
fn writes_a_footer_again(rt: HostRuntime) -> Result<(), Fail> {
    let alloc = rt.alloc();
    let buffers = serializer(alloc)?.serialize(alloc)?;
    assert_eq!(rt; joined(alloc, &buffers)?.as_slice(), TAIL.as_slice());
    let buffers = serializer(alloc)?.exclude_dtype().serialize(alloc)?;
    assert_eq!(rt; buffers.len(), 4);
    let latest = serializer(alloc)?.with_version(FileVersion::V2);
    let bytes = joined(alloc, &latest.with_exclude_dtype(false).serialize(alloc)?)?;
    assert_eq!(rt; bytes.get(415), Some(&2));
    let written = serializer(alloc)?.serialize_with_metadata(alloc)?;
    assert_eq!(rt; written.approx_byte_size, TAIL.len());
    assert_eq!(rt; written.metadata.len(), 0);
    Ok(())
}

#[test]
fn refuses_footers(rt: HostRuntime) -> Result<(), Fail> {
    let alloc = rt.alloc();
    let ids = vec![in alloc; String::from_str(alloc, "vortex.struct")?]?;
    let context = LayoutContext::new(Some(ids));
    let refused = serializer(alloc)?.with_layout_context(context);
    assert_eq!(rt;
        refused.serialize(alloc).err(),
        Some(WriteError::NotPermitted)
    );
    let refused = serializer(alloc)?.with_offset(u64::MAX - 9);
    assert_eq!(rt;
        refused.serialize(alloc).err(),
        Some(WriteError::OffsetOverflow)
    );
    Ok(())
}
