use std::alloc::Global;
use std::test::*;
use vx_base::{Alignment, Sequence, Text};
use vx_footer::*;

// A place of a table.
fn place(offset: u64) -> Result<PostscriptSegment, Fail> {
    Ok(PostscriptSegment {
        offset,
        length: 21,
        alignment: Alignment::new(3)?,
    })
}

// A postscript with metadata of these keys.
fn with_keys(alloc: Global, keys: &[String]) -> Result<Postscript, Fail> {
    let mut metadata = Sequence::new(alloc);
    for key in keys {
        metadata.push(PostscriptMetadata {
            key: Text::from_str(alloc, key.as_str())?,
            segment: place(8)?,
        })?;
    }
    Ok(Postscript {
        dtype: Some(place(26)?),
        layout: place(47)?,
        statistics: None,
        footer: place(91)?,
        metadata,
    })
}

// A text of so many bytes, of which the last are a number.
fn key_of(alloc: Global, size: usize, number: usize) -> Result<String, Fail> {
    let end = format!(in alloc; "{number}")?;
    let mut key = String::new(alloc);
    for _filled in 0..size.saturating_sub(end.as_str().len()) {
        key.push_str("k")?;
    }
    key.push_str(end.as_str())?;
    Ok(key)
}

// How many bytes the postscript of these keys has, or why it isn't written. What was written is read back.
fn told(alloc: Global, keys: &[String], version: FileVersion) -> Result<String, Fail> {
    match with_keys(alloc, keys)?.write(alloc, version) {
        Ok(buffer) => {
            let read = Postscript::read(alloc, buffer.as_slice(), version)?;
            let same = read.metadata.as_slice().len() == keys.len();
            Ok(format!(in alloc; "{} {same}", buffer.len())?)
        }
        Err(error) => Ok(format!(in alloc; "{error}")?),
    }
}

#[test]
fn writes_and_refuses_postscripts(rt: HostRuntime) -> Result<(), Fail> {
    let alloc = rt.alloc();
    let v1 = FileVersion::V1;
    let v2 = FileVersion::V2;
    let rows: [(usize, usize, FileVersion, &str); 8] = [
        (0, 1, v1, "113 true"),
        (17, 6, v1, "TooManyMetadata"),
        (16, 64, v1, "2043 true"),
        (1, 65, v1, "LongKey"),
        (1, 65, v2, "244 true"),
        (1, 257, v2, "LongKey"),
        (64, 256, v2, "20091 true"),
        (65, 6, v2, "TooManyMetadata"),
    ];
    for (count, size, version, answer) in rows {
        let mut keys = Vec::new(alloc);
        for number in 0..count {
            keys.push(key_of(alloc, size, number)?)?;
        }
        assert_eq!(rt; told(alloc, &keys, version)?.as_str(), answer);
    }
    let mut keys = Vec::new(alloc);
    keys.push(key_of(alloc, 2, 7)?)?;
    keys.push(key_of(alloc, 2, 7)?)?;
    assert_eq!(rt; told(alloc, &keys, v1)?.as_str(), "DuplicateKey");
    let mut keys = Vec::new(alloc);
    keys.push(key_of(alloc, 2, 7)?)?;
    keys.push(String::new(alloc))?;
    keys.push(key_of(alloc, 2, 7)?)?;
    assert_eq!(rt; told(alloc, &keys, v1)?.as_str(), "EmptyKey");
    Ok(())
}
