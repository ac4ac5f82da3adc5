//! Reads the script on an input.
ghost use Rattle.std.specs.Prelude.{◌≡◌, ◌+◌, ◌≤◌, ◌<◌, ℕ, List, [], ◌++◌, length, vec_len, take, drop, Some, true, false, IfOk, OnErr};
ghost use Rattle.vx_base.specs.Counts.{Rises};
ghost use Rattle.vx_base.specs.Streams.{SameSource};
ghost use Rattle.vx_commands.specs.Input.{ScriptCause, StepsCause, script_failure};
ghost use Rattle.vx_commands.specs.Streams.{InputCause};
ghost use Rattle.vx_commands.specs.declared.input.InputError.TheVariants as errors;

use crate::failure::Failure;
use crate::script::{self, ScriptError};
use std::alloc::{AllocError, Global};
use vx_base::Source;
use vx_file::Script;

/// The most bytes that an input may have.
pub const MOST_INPUT: usize = 67_108_864;

/// How many bytes are taken at once. It is no power of two, since the room of a text doubles: that of a long one would
/// be just the most that the C library keeps to itself when it is freed, and what is made later would lie in fresh memory.
const PIECE: usize = 64_512;

/// Why an input was not read.
#[derive(Clone, Copy, Debug, PartialEq, Eq)]
pub enum InputError {
    /// The source failed.
    Failed,
    /// The input has more bytes than it may.
    TooLong,
    OutOfMemory,
}

impl From<AllocError> for InputError {
    ghost use Rattle.std.specs.Prelude.{◌≡◌};
    ghost use Rattle.vx_commands.specs.declared.input.InputError.TheVariants.{OutOfMemory};

    ghost from_gives = { λ _ e. e ≡ OutOfMemory };

    fn from(_error: AllocError) -> InputError {
        InputError::OutOfMemory
    }
}

/// Takes some bytes, at most as many as the piece has, and says how many: none at the end.
fn take_some<I: Source>(
    input: &mut I,
    piece: &mut [u8],
    text: &mut Vec<u8>,
) -> Result<usize, InputError>
    ensures told { IfOk result (λ n. (r : List ℕ) → (I.state input.old).rest ≡ Some r → (n ≤ length r) ×
        ((I.state input.new).rest ≡ Some (drop n r)) × (text.new.items ≡ text.old.items ++ take n r)) }
    ensures end { IfOk result (λ n. (r : List ℕ) → n ≡ 0 → 0 < length piece.old → (I.state input.old).rest ≡ Some r → r ≡ []) }
    ensures bound { IfOk result (λ n. (n ≤ length piece.old) × (vec_len text.new ≡ vec_len text.old + n)) }
    ensures failed { result ≡ Err errors.Failed → Rises 1 ((I.state input.old).faults) ((I.state input.new).faults) }
    ensures short { result ≡ Err errors.TooLong → ⊥ }
    ensures sound { (I.state input.old).never_fails ≡ true →
        (result ≡ Err errors.Failed → ⊥) × ((I.state input.new).faults ≡ (I.state input.old).faults) }
    ensures same { SameSource (I.state input.old) (I.state input.new) }
{
    let Ok(n) = input.read(piece) else {
        return Err(InputError::Failed);
    };
    text.extend_from_slice(&piece[..n])?;
    Ok(n)
}

/// Room for one turn.
fn make_piece(alloc: Global) -> Result<Vec<u8>, AllocError>
    ensures { IfOk result (λ piece. 0 < vec_len piece) }
{
    vec![in alloc; 0u8; PIECE]
}

/// Reads an input to its end, in turns that each take at least one byte, and at most one byte more
/// than an input may have.
pub(crate) fn read_input<I: Source>(alloc: Global, input: &mut I) -> Result<Vec<u8>, InputError>
    ensures cause { InputCause (λ text. text.items) (I.state input.old) (I.state input.new) result }
    ensures sound { (I.state input.old).never_fails ≡ true → (I.state input.new).faults ≡ (I.state input.old).faults }
    ensures same { SameSource (I.state input.old) (I.state input.new) }
{
    let mut text = Vec::new(alloc);
    let mut buffer = make_piece(alloc)?;
    while text.len() <= MOST_INPUT {
        let room = (MOST_INPUT + 1 - text.len()).min(buffer.len());
        let n = take_some(input, &mut buffer[..room], &mut text)?;
        if n == 0 {
            return Ok(text);
        }
    }
    Err(InputError::TooLong)
}

/// Why a text is no script.
fn failure_of<'a>(error: ScriptError) -> Failure<'a>
    ensures { result ≡ script_failure error }
{
    match error {
        ScriptError::Line(line) => Failure::Line(line),
        ScriptError::OutOfMemory => Failure::OutOfMemory,
    }
}

/// The steps of a script.
fn steps_of<'a>(alloc: Global, text: &[u8]) -> Result<Script, Failure<'a>>
    ensures { StepsCause text.now result }
{
    match script::read(alloc, text) {
        Ok(script) => Ok(script),
        Err(error) => Err(failure_of(error)),
    }
}

/// The script that an input spells.
pub(crate) fn load_script<'a, I: Source>(
    alloc: Global,
    input: &mut I,
) -> Result<Script, Failure<'a>>
    ensures cause { ScriptCause (I.state input.old) (I.state input.new) result }
    ensures steady { (I.state input.old).never_fails ≡ true → (I.state input.new).faults ≡ (I.state input.old).faults }
    ensures same { SameSource (I.state input.old) (I.state input.new) }
{
    let text = match read_input(alloc, input) {
        Ok(text) => text,
        Err(InputError::Failed) => return Err(Failure::Input),
        Err(InputError::TooLong) => return Err(Failure::InputTooLong),
        Err(InputError::OutOfMemory) => return Err(Failure::OutOfMemory),
    };
    steps_of(alloc, text.as_slice())
}
