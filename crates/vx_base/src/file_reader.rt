//! Readers over real files. They tell no content.
ghost use Rattle.std.specs.Prelude.{◌≡◌};

use crate::{
    ByteBuffer, CloneError, Failed, Opener, OpenerError, RangeAnswer, ReadAtRequest, Reader,
    are_whole, count_faulted, log_answers,
};
use std::alloc::{AllocError, Global};
use std::fs;
use std::fs::{File, Files};
use std::io::ErrorKind;
use std::os::unix::fs::FileExt;

// As many ranges as one call may ask.
const MOST_RANGES: usize = 8;

// As many bytes are made and filled at once. So few are still near the processor when they are filled.
const BLOCK: usize = 1 << 18;

// For how many bytes a range of this length gets room: whole blocks, so that the room of one range serves the next, which
// may be a little longer.
fn room_for(length: usize) -> usize {
    if length < BLOCK {
        return length;
    }
    length.saturating_add(BLOCK - 1) / BLOCK * BLOCK
}

/// A reader over an open file, with no distance, no read limit and a concurrency of 8.
#[derive(Drop)]
pub struct FileReader {
    file: File,
    faults: u64,
}

impl FileReader {
    /// A reader over an open file.
    pub fn new(file: File) -> FileReader
        ensures { (⟦<FileReader as Reader>⟧.state result).faults ≡ 0 }
    {
        FileReader { file, faults: 0 }
    }

    // Fills a buffer from a place, or fails where the file ends before.
    fn fill(&self, into: &mut [u8], offset: u64) -> Result<(), Failed> {
        let mut done = 0;
        for _ in 0..u64::MAX {
            if done >= into.len() {
                return Ok(());
            }
            match self
                .file
                .read_at(&mut into[done..], offset.wrapping_add(done as u64))
            {
                Ok(0) => return Err(Failed),
                Ok(count) => done += count,
                Err(error) => {
                    if error.kind() != ErrorKind::Interrupted {
                        return Err(Failed);
                    }
                }
            }
        }
        Err(Failed)
    }

    // Adds the bytes of a range to none, block by block. Tells whether the file has all of them.
    fn read_blocks(
        &self,
        bytes: &mut Vec<u8>,
        offset: u64,
        length: usize,
    ) -> Result<bool, AllocError> {
        for done in (0..length).step_by(BLOCK) {
            bytes.resize(done.saturating_add(BLOCK).min(length), 0)?;
            let place = offset.wrapping_add(done as u64);
            if self.fill(&mut bytes.as_mut_slice()[done..], place).is_err() {
                return Ok(false);
            }
        }
        Ok(true)
    }

    // The answer to one range.
    fn answer(&self, alloc: Global, range: &ReadAtRequest) -> Result<RangeAnswer, AllocError> {
        let mut bytes = Vec::with_capacity(alloc, room_for(range.length))?;
        let result = if self.read_blocks(&mut bytes, range.offset, range.length)? {
            Ok(ByteBuffer::from_vec(alloc, bytes, range.alignment)?)
        } else {
            Err(Failed)
        };
        Ok(RangeAnswer {
            request: *range,
            result,
        })
    }
}

impl Reader for FileReader {
    ghost use Rattle.std.specs.Prelude.{None, false};

    ghost state = { λ r. record {
      bytes = None;
      uri = None;
      distance = None;
      max_read_size = None;
      concurrency = 8;
      never_fails = false;
      log = None;
      faults = r.faults;
    } };

    fn size(&mut self) -> Result<u64, Failed> {
        match self.file.metadata() {
            Ok(metadata) => Ok(metadata.len()),
            Err(_) => {
                self.faults = self.faults.saturating_add(1);
                Err(Failed)
            }
        }
    }

    fn read_ranges(
        &mut self,
        alloc: Global,
        asked: &[ReadAtRequest],
    ) -> Result<Vec<RangeAnswer>, AllocError> {
        let mut answers = Vec::new(alloc);
        for range in asked {
            answers.push(self.answer(alloc, range)?)?;
        }
        if are_whole(asked, answers.as_slice()) {
            return Ok(answers);
        }
        let gained = log_answers(alloc, asked, answers.as_slice())?;
        let faulted = count_faulted(gained.as_slice()) as u64;
        self.faults = self.faults.saturating_add(faulted);
        Ok(answers)
    }

    fn coalesce_distance(&self) -> Option<u64> {
        None
    }

    fn max_read_size(&self) -> Option<u64> {
        None
    }

    fn concurrency(&self) -> usize {
        MOST_RANGES
    }

    fn uri(&self) -> Option<&str> {
        None
    }

    fn try_clone(&mut self, alloc: Global) -> Result<FileReader, CloneError> {
        let _ = alloc;
        match self.file.try_clone() {
            Ok(file) => Ok(FileReader::new(file)),
            Err(_) => {
                self.faults = self.faults.saturating_add(1);
                Err(CloneError::Failed)
            }
        }
    }
}

/// What opens readers over real files by their paths.
#[derive(Drop)]
pub struct FileOpener<R: Files<File = File> + Drop> {
    runtime: R,
    faults: u64,
    read_faults: u64,
}

impl<R: Files<File = File> + Drop> FileOpener<R> {
    /// What opens files of a runtime, as that of `main`.
    pub fn new(runtime: R) -> FileOpener<R>
        ensures faults { (⟦<FileOpener<R> as Opener>⟧.state result).faults ≡ 0 }
        ensures read_faults { (⟦<FileOpener<R> as Opener>⟧.state result).read_faults ≡ 0 }
    {
        FileOpener {
            runtime,
            faults: 0,
            read_faults: 0,
        }
    }
}

impl<R: Files<File = File> + Drop> Opener for FileOpener<R> {
    type Reader = FileReader;

    ghost use Rattle.std.specs.Prelude.{None, false};
    ghost use Rattle.vx_base.specs.Memory.{plain_settings};

    ghost state = { λ o. record {
      file = λ _. None;
      settings = λ _. plain_settings;
      never_fails = λ _. false;
      asked = None;
      returned = None;
      faults = o.faults;
      read_faults = o.read_faults;
      memory_faults = 0;
    } };

    fn open_named(&mut self, alloc: Global, name: &str) -> Result<FileReader, OpenerError> {
        let _ = alloc;
        match fs::open(&self.runtime, name) {
            Ok(file) => Ok(FileReader::new(file)),
            Err(_) => {
                self.faults = self.faults.saturating_add(1);
                Err(OpenerError::Failed)
            }
        }
    }

    fn take_back(
        &mut self,
        alloc: Global,
        name: &str,
        reader: FileReader,
    ) -> Result<(), AllocError> {
        let _ = alloc;
        let _ = name;
        self.read_faults = self.read_faults.saturating_add(reader.faults);
        Ok(())
    }
}
