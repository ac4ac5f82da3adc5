//! The implementations of the outside, with ample memory, over memory and over real files.
use std::alloc::Global;
use std::fs;
use std::test::Fail;
use vx_base::{
    Alignment, ByteBuffer, FaultKind, FileOpener, FileReader, MemOpener, MemReader, MemSink,
    MemSource, Mischief, MischiefKind, Opener, RangeAnswer, ReadAtRequest, Reader, Sequence, Sink,
    Source, StdSink, StdSource, Text, WithWindow, log_answers, write_flushed, write_pieces,
};

fn range(offset: u64, length: usize) -> ReadAtRequest {
    ReadAtRequest {
        offset,
        length,
        alignment: Alignment::none(),
    }
}

fn buffer(alloc: Global, bytes: &[u8]) -> Result<ByteBuffer, Fail> {
    let bytes = Vec::from_slice(alloc, bytes)?;
    Ok(ByteBuffer::from_vec(alloc, bytes, Alignment::none())?)
}

// The bytes from 1 to 4 of a buffer, with an alignment of 8 bytes.
fn cut(alloc: Global, whole: &ByteBuffer) -> Result<ByteBuffer, Fail> {
    if whole.len() < 4 {
        return Err(Fail::from("too short"));
    }
    let alignment = Alignment::new(3).ok().ok_or("no alignment")?;
    Ok(whole.slice(alloc, 1..4)?.aligned(alignment))
}

#[test]
fn buffers_are_cut_and_shared(rt: HostRuntime) -> Result<(), Fail> {
    let part = cut(rt.alloc(), &buffer(rt.alloc(), b"vortex")?)?;
    assert_eq!(rt; part.share(rt.alloc())?.as_slice(), b"ort".as_slice());
    assert_eq!(rt; part.alignment().as_u64(), 8);
    Ok(())
}

// A buffer with these bytes behind its own.
fn extended(alloc: Global, buffer: ByteBuffer, bytes: &[u8]) -> Result<ByteBuffer, Fail> {
    Ok(buffer.extended(alloc, bytes)?)
}

#[test]
fn buffers_are_extended(rt: HostRuntime) -> Result<(), Fail> {
    // the bytes of one are shared, and those of the other are not
    let whole = buffer(rt.alloc(), b"vortex")?;
    let longer = extended(rt.alloc(), cut(rt.alloc(), &whole)?, b"ex")?;
    assert_eq!(rt; longer.as_slice(), b"ortex".as_slice());
    assert_eq!(rt; longer.alignment().as_u64(), 8);
    let alone = extended(rt.alloc(), buffer(rt.alloc(), b"vor")?, b"tex")?;
    assert_eq!(rt; alone.as_slice(), whole.as_slice());
    Ok(())
}

#[test]
fn small_types_keep_what_they_get(rt: HostRuntime) -> Result<(), Fail> {
    let mut numbers = Sequence::new(rt.alloc());
    numbers.push(4u8)?;
    let numbers = Sequence::from_vec(numbers.into_vec());
    assert_eq!(rt; numbers.as_slice(), [4].as_slice());
    assert_eq!(rt; Text::from_str(rt.alloc(), "name")?.as_str(), "name");
    assert_eq!(rt;
        format!(in rt.alloc(); "{}", FaultKind::ShortRead)?.as_str(),
        "ShortRead"
    );
    Ok(())
}

// A reader of ten digits that does each mischief once, under a window.
fn mischievous(alloc: Global) -> Result<WithWindow<MemReader>, Fail> {
    let kinds = [
        (0, MischiefKind::Late),
        (1, MischiefKind::Fail),
        (2, MischiefKind::Short),
        (3, MischiefKind::Skip),
        (4, MischiefKind::Unknown),
        (0, MischiefKind::Size),
        (0, MischiefKind::Clone),
    ];
    let mut wrongs = Vec::new(alloc);
    for (at, kind) in kinds {
        wrongs.push(Mischief { at, kind })?;
    }
    let bytes = buffer(alloc, b"0123456789")?;
    let reader = MemReader::new(alloc, bytes, None, None, 8, wrongs)?;
    Ok(WithWindow::new(reader, Some(4), Some(100), 6))
}

#[test]
fn a_size_and_a_clone_fail_once(rt: HostRuntime) -> Result<(), Fail> {
    let mut reader = mischievous(rt.alloc())?;
    assert_eq!(rt; reader.coalesce_distance(), Some(4));
    assert_eq!(rt; reader.max_read_size(), Some(100));
    assert!(rt; reader.size().is_err());
    assert_eq!(rt; reader.size().ok(), Some(10));
    assert!(rt; reader.try_clone(rt.alloc()).is_err());
    assert!(rt; reader.try_clone(rt.alloc()).is_ok());
    Ok(())
}

// Whether an answer names a range, and has these bytes, if any are told.
fn is_answer(answer: &RangeAnswer, offset: u64, length: usize, told: Option<&[u8]>) -> bool {
    let bytes = answer.result.as_ref().ok().map(|bytes| bytes.as_slice());
    answer.request == range(offset, length) && (told.is_none() || bytes == told)
}

// Whether the ranges have these marks by their answers.
fn have_marks(
    alloc: Global,
    asked: &[ReadAtRequest],
    answers: &[RangeAnswer],
    marks: &[Option<FaultKind>],
) -> Result<bool, Fail> {
    let log = log_answers(alloc, asked, answers)?;
    for (entry, mark) in log.iter().zip(marks) {
        if entry.mark != *mark {
            return Ok(false);
        }
    }
    Ok(log.len() == marks.len())
}

#[test]
fn mischief_is_done_at_its_place(rt: HostRuntime) -> Result<(), Fail> {
    let alloc = rt.alloc();
    let asked = [
        range(0, 1),
        range(1, 1),
        range(2, 2),
        range(4, 1),
        range(5, 1),
        range(9, 2),
    ];
    let mut reader = mischievous(alloc)?;
    assert!(rt; asked.len() <= reader.concurrency());
    let answers = reader.read_ranges(alloc, &asked)?;
    let [failed, short, unknown, _, _, late] = answers.as_slice() else {
        return Err(Fail::from("not six answers"));
    };
    assert!(rt; is_answer(failed, 1, 1, None));
    assert!(rt; is_answer(short, 2, 2, Some(b"2")));
    assert!(rt; is_answer(unknown, 9, 1, None));
    assert!(rt; is_answer(late, 0, 1, None));
    let marks = [
        None,
        Some(FaultKind::ReadFault),
        Some(FaultKind::ShortRead),
        Some(FaultKind::MissingRange),
        None,
        Some(FaultKind::ReadFault),
    ];
    assert!(rt; have_marks(alloc, &asked, answers.as_slice(), &marks)?);
    assert_eq!(rt; reader.into_inner().asked(), asked.as_slice());
    Ok(())
}

#[test]
fn streams_in_memory_fail_where_they_are_told(rt: HostRuntime) -> Result<(), Fail> {
    let bytes = Vec::from_slice(rt.alloc(), b"abc")?;
    let mut source = MemSource::new(bytes, vec![in rt.alloc(); 1]?);
    let mut into = [0u8; 2];
    assert_eq!(rt; source.read(&mut into).ok(), Some(2));
    assert!(rt; source.read(&mut into).is_err());
    assert_eq!(rt; source.read(&mut into).ok(), Some(1));
    assert_eq!(rt; source.read(&mut into).ok(), Some(0));
    let pieces = [b"ab".as_slice(), b"".as_slice(), b"cde".as_slice()];
    let mut sink = MemSink::new(rt.alloc(), vec![in rt.alloc(); 3]?);
    assert!(rt; write_pieces(rt.alloc(), &mut sink, &pieces).is_ok());
    assert!(rt; write_flushed(rt.alloc(), &mut sink, b"f").is_err());
    assert!(rt; write_flushed(rt.alloc(), &mut sink, b"g").is_ok());
    assert_eq!(rt; sink.into_bytes().as_slice(), b"abcdefg".as_slice());
    Ok(())
}

// An opener of two files of one name, whose second call fails.
fn opener_of_two(alloc: Global) -> Result<MemOpener, Fail> {
    let mut files = Vec::new(alloc);
    for bytes in [b"one".as_slice(), b"second".as_slice()] {
        files.push((
            String::from_str(alloc, "a")?,
            buffer(alloc, bytes)?,
            Vec::new(alloc),
        ))?;
    }
    Ok(MemOpener::new(alloc, files, vec![in alloc; 1]?))
}

#[test]
fn an_opener_in_memory_finds_the_first_of_a_name(rt: HostRuntime) -> Result<(), Fail> {
    let mut opener = opener_of_two(rt.alloc())?;
    let mut reader = opener.open_named(rt.alloc(), "a").ok().ok_or("not opened")?;
    assert_eq!(rt; reader.size().ok(), Some(3));
    assert_eq!(rt; reader.concurrency(), 8);
    opener.take_back(rt.alloc(), "a", reader)?;
    assert!(rt; opener.open_named(rt.alloc(), "a").is_err());
    assert!(rt; opener.open_named(rt.alloc(), "b").is_err());
    Ok(())
}

// A path of this process.
fn path_of(rt: &HostRuntime) -> Result<String, Fail> {
    Ok(format!(in rt.alloc(); "/tmp/vx_base_test_{}", std::process::id(rt.process()))?)
}

// How many bytes of some a new file takes, and whether it flushes them.
fn write_real(rt: &HostRuntime, path: &str) -> Result<(Option<usize>, bool), Fail> {
    let mut sink = StdSink::new(fs::create(rt, path)?);
    let written = sink.write(rt.alloc(), b"vortex").ok();
    Ok((written, sink.flush().is_ok()))
}

// How many bytes two reads of a file give.
fn read_real(rt: &HostRuntime, path: &str) -> Result<(Option<usize>, Option<usize>), Fail> {
    let mut source = StdSource::new(fs::open(rt, path)?);
    let mut into = [0u8; 8];
    let first = source.read(&mut into).ok();
    Ok((first, source.read(&mut into).ok()))
}

// The first bytes that a clone answers to two ranges, of which the second ends past the file.
fn ask_real(alloc: Global, reader: &mut FileReader) -> Result<Option<ByteBuffer>, Fail> {
    let mut clone = reader.try_clone(alloc).ok().ok_or("not cloned")?;
    let answers = clone.read_ranges(alloc, &[range(3, 3), range(4, 3)])?;
    let mut all = answers.into_iter();
    let first = all.next().ok_or("no answer")?;
    let second = all.next().ok_or("no answer")?;
    if second.result.is_ok() {
        return Ok(None);
    }
    Ok(first.result.ok())
}

// The bytes of a file that a reader of its name answers.
fn ask_named(rt: &HostRuntime, path: &str) -> Result<ByteBuffer, Fail> {
    let mut opener = FileOpener::new(*rt);
    let mut reader = opener
        .open_named(rt.alloc(), path)
        .ok()
        .ok_or("not opened")?;
    let bytes = ask_real(rt.alloc(), &mut reader)?.ok_or("no bytes")?;
    opener.take_back(rt.alloc(), path, reader)?;
    Ok(bytes)
}

#[test]
fn real_files_are_read_and_written(rt: HostRuntime) -> Result<(), Fail> {
    let path = path_of(&rt)?;
    assert_eq!(rt; write_real(&rt, path.as_str())?, (Some(6), true));
    assert_eq!(rt; read_real(&rt, path.as_str())?, (Some(6), Some(0)));
    let bytes = ask_named(&rt, path.as_str())?;
    assert_eq!(rt; bytes.as_slice(), b"tex".as_slice());
    fs::remove_file(&rt, path.as_str())?;
    let opened = FileOpener::new(rt).open_named(rt.alloc(), path.as_str());
    assert!(rt; opened.is_err());
    Ok(())
}
