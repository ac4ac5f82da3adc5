//! An opener of readers over memory.
ghost use Rattle.std.specs.Prelude.{◌≡◌, ℕ, ◌∷◌, ◌++◌, List, [], Some, None, IfOk, OnOk, OnErr, option_map};
ghost use Rattle.vx_base.specs.Memory.{MemOpenerState, opener_state, new_opener, file_named, reader_of_file, reader_named, is_failing, reader_state};
ghost use Rattle.vx_base.specs.Counts.{next_count};
ghost use Rattle.vx_base.specs.Openers.{OpenCause, ReturnCause, SameOpener};

use crate::{Asked, ByteBuffer, MemReader, Mischief, Opener, OpenerError, Text};
use std::alloc::{AllocError, Global};
use std::marker::Model;

// A reader that was taken back.
#[derive(Drop)]
struct TakenBack {
    name: Text,
    log: Vec<Asked>,
}

impl Model for TakenBack {
    ghost use Rattle.std.specs.Prelude.{Some};
    ghost use Rattle.vx_base.specs.Openers.{Returned};

    ghost Value = { Returned };

    ghost view = { λ t. record { name = t.name; log = Some t.log.items } };
}

impl TakenBack {
    fn new(alloc: Global, name: &str, log: Vec<Asked>) -> Result<TakenBack, AllocError>
        ensures { IfOk result (λ t. t ≡ record { name = name.now; log = Some log.items }) }
    {
        let name = Text::from_str(alloc, name)?;
        Ok(TakenBack { name, log })
    }
}

/// What opens readers over memory by name. It tells what each name holds, the names that were asked
/// for and the readers that were taken back. Its readers have no distance, no read limit and a
/// concurrency of 8.
#[derive(Drop)]
pub struct MemOpener {
    files: Vec<(String, ByteBuffer, Vec<Mischief>)>,
    fail: Vec<u64>,
    asked: Vec<Text>,
    returned: Vec<TakenBack>,
    opens: u64,
    faults: u64,
    read_faults: u64,
    memory_faults: u64,
}

impl Model for MemOpener {
    ghost use Rattle.vx_base.specs.Memory.{MemOpenerState};

    ghost Value = { MemOpenerState };

    ghost view = { λ o. record {
      files = o.files.items;
      fail = o.fail.items;
      asked = o.asked.items;
      returned = o.returned.items;
      opens = o.opens;
      faults = o.faults;
      read_faults = o.read_faults;
      memory_faults = o.memory_faults;
    } };
}

impl MemOpener {
    /// An opener of these files, the first of a name, whose opens at these places, from 0, fail. A name
    /// whose file does no mischief never fails where no place is given.
    pub fn new(
        alloc: Global,
        files: Vec<(String, ByteBuffer, Vec<Mischief>)>,
        fail: Vec<u64>,
    ) -> MemOpener
        ensures { result ≡ new_opener files.items fail.items }
    {
        MemOpener {
            files,
            fail,
            asked: Vec::new(alloc),
            returned: Vec::new(alloc),
            opens: 0,
            faults: 0,
            read_faults: 0,
            memory_faults: 0,
        }
    }

    // Counts an open, and says whether it fails.
    fn fails(&mut self) -> bool
        ensures value { result ≡ is_failing self.old.fail self.old.opens }
        ensures after { self.new ≡ record self.old { opens = next_count self.old.opens } }
    {
        let place = self.opens;
        self.opens = place.saturating_add(1);
        self.fail.contains(&place)
    }
}

// A reader of the first file of a name, if there is one.
fn reader_of(
    alloc: Global,
    files: &[(String, ByteBuffer, Vec<Mischief>)],
    name: &str,
) -> Result<Option<MemReader>, AllocError>
    ensures { IfOk result (λ found. found ≡ option_map reader_of_file (file_named name.now files.now)) }
{
    for (text, bytes, mischief) in files {
        if text.as_str() == name {
            let shared = bytes.share(alloc)?;
            let wrongs = mischief.as_slice().to_vec(alloc)?;
            return Ok(Some(MemReader::new(alloc, shared, None, None, 8, wrongs)?));
        }
    }
    Ok(None)
}

// Notes that a name is asked for. Without memory nothing changes.
fn note_name(alloc: Global, asked: &mut Vec<Text>, name: &str) -> Result<(), AllocError>
    ensures ok { OnOk result (asked.new.items ≡ asked.old.items ++ name.now ∷ []) }
    ensures err { OnErr result (asked.new.items ≡ asked.old.items) }
{
    asked.push(Text::from_str(alloc, name)?)?;
    Ok(())
}

// Notes a reader that was taken back. Without memory nothing changes.
fn note_reader(
    alloc: Global,
    returned: &mut Vec<TakenBack>,
    name: &str,
    log: Vec<Asked>,
) -> Result<(), AllocError>
    ensures ok { OnOk result (returned.new.items ≡ returned.old.items ++ record { name = name.now; log = Some log.items } ∷ []) }
    ensures err { OnErr result (returned.new.items ≡ returned.old.items) }
{
    returned.push(TakenBack::new(alloc, name, log)?)?;
    Ok(())
}

impl Opener for MemOpener {
    type Reader = MemReader;

    ghost state = { opener_state };

    fn open_named(&mut self, alloc: Global, name: &str) -> Result<MemReader, OpenerError>
        ensures cause { OpenCause reader_state name.now (opener_state self.old) (opener_state self.new) result }
        ensures same { SameOpener (opener_state self.old) (opener_state self.new) }
        // Exactly the opens at the chosen places, and names that are not there, fail.
        ensures found { IfOk result (λ r. Some r ≡ reader_named name.now self.old) }
        ensures failed { result ≡ Err OpenerError.Failed → reader_named name.now self.old ≡ None }
    {
        let Ok(found) = reader_of(alloc, self.files.as_slice(), name) else {
            self.memory_faults = self.memory_faults.saturating_add(1);
            return Err(OpenerError::OutOfMemory);
        };
        if note_name(alloc, &mut self.asked, name).is_err() {
            self.memory_faults = self.memory_faults.saturating_add(1);
            return Err(OpenerError::OutOfMemory);
        }
        let fails = self.fails();
        match found {
            Some(reader) if !fails => Ok(reader),
            _ => {
                self.faults = self.faults.saturating_add(1);
                Err(OpenerError::Failed)
            }
        }
    }

    fn take_back(
        &mut self,
        alloc: Global,
        name: &str,
        reader: MemReader,
    ) -> Result<(), AllocError> {
        self.read_faults = self.read_faults.saturating_add(reader.faults());
        match note_reader(alloc, &mut self.returned, name, reader.into_log()) {
            Ok(()) => Ok(()),
            Err(error) => {
                self.memory_faults = self.memory_faults.saturating_add(1);
                Err(error)
            }
        }
    }
}
