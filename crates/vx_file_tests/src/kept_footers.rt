//! Footers that are kept by name, with ample memory.
use crate::serving::file_of_four;
use std::alloc::Global;
use std::test::Fail;
use vx_base::{MemReader, SegmentId};
use vx_data::{DType, Layout, VortexSession};
use vx_file::{CachedError, MOST_WEIGHT, MultiFileSession, open_cached};
use vx_footer::{DeserializeStep, Footer};

// A footer whose size is not known, and which weighs ten.
fn unknown(alloc: Global) -> Result<Footer, Fail> {
    let layout = Layout::flat(alloc, DType::Bool(false), 3, SegmentId(0))?;
    Ok(Footer::new(alloc, layout, Vec::new(alloc), None, Vec::new(alloc))?)
}

// A footer of 281 bytes.
fn known(alloc: Global) -> Result<Option<Footer>, Fail> {
    let buffer = file_of_four(alloc)?;
    let size = buffer.len() as u64;
    let mut deserializer = Footer::deserializer(buffer, VortexSession::new(alloc)?).with_size(size);
    match deserializer.deserialize(alloc)? {
        DeserializeStep::Done(footer) => Ok(Some(footer)),
        _ => Ok(None),
    }
}

// Whether a footer is kept by a name, which goes to the front.
fn is_kept(alloc: Global, kept: &mut MultiFileSession, name: &str) -> Result<bool, Fail> {
    Ok(kept.get_footer(alloc, name)?.is_some())
}

#[test]
fn footers_are_kept_by_their_names(rt: HostRuntime) -> Result<(), Fail> {
    let alloc = rt.alloc();
    let mut kept = MultiFileSession::new(alloc)?;
    let footer = known(alloc)?.ok_or("no footer")?;
    // One of 281 bytes weighs one, also where it is put again.
    for name in ["a", "b", "a"] {
        kept.put_footer(alloc, name, &footer)?;
    }
    assert_eq!(rt; kept.weight(), 2);
    assert!(rt; is_kept(alloc, &mut kept, "a")?);
    assert!(rt; !is_kept(alloc, &mut kept, "c")?);
    let found = kept.get_footer(alloc, "b")?.ok_or("not kept")?;
    assert_eq!(rt; found.row_count(), 4);
    Ok(())
}

#[test]
fn the_footer_that_was_used_least_recently_goes(rt: HostRuntime) -> Result<(), Fail> {
    let alloc = rt.alloc();
    let mut kept = MultiFileSession::new(alloc)?;
    let footer = unknown(alloc)?;
    for number in 0..10_240 {
        let name = format!(in alloc; "{number}")?;
        kept.put_footer(alloc, name.as_str(), &footer)?;
    }
    assert_eq!(rt; kept.weight(), MOST_WEIGHT);
    assert!(rt; is_kept(alloc, &mut kept, "0")?);
    kept.put_footer(alloc, "more", &footer)?;
    assert_eq!(rt; kept.weight(), MOST_WEIGHT);
    assert!(rt; is_kept(alloc, &mut kept, "0")?);
    assert!(rt; !is_kept(alloc, &mut kept, "1")?);
    Ok(())
}

// How many ranges are asked to open the four-value file by a key, unless that is missing.
fn asked(
    alloc: Global,
    kept: &mut MultiFileSession,
    key: Option<&str>,
) -> Result<Option<usize>, Fail> {
    let session = VortexSession::new(alloc)?;
    let bytes = file_of_four(alloc)?;
    let reader = MemReader::new(alloc, bytes, None, None, 8, Vec::new(alloc))?;
    match open_cached(alloc, &session, kept, key, reader, None, |options| options) {
        Ok(mut file) if file.row_count() == 4 => {
            Ok(Some(file.segment_source().reader().asked().len()))
        }
        Err(CachedError::MissingKey) => Ok(None),
        _ => Err(Fail::from("not opened")),
    }
}

#[test]
fn a_file_whose_footer_is_kept_opens_without_a_read(rt: HostRuntime) -> Result<(), Fail> {
    let alloc = rt.alloc();
    let mut kept = MultiFileSession::new(alloc)?;
    assert_eq!(rt; asked(alloc, &mut kept, None)?, None);
    assert_eq!(rt; asked(alloc, &mut kept, Some("f"))?, Some(1));
    assert_eq!(rt; asked(alloc, &mut kept, Some("f"))?, Some(0));
    assert_eq!(rt; asked(alloc, &mut kept, Some("g"))?, Some(1));
    assert_eq!(rt; kept.weight(), 2);
    Ok(())
}
