//! `demo V ..`: serves a file of the values, which it writes to memory, by the script on the input.
ghost use Rattle.std.specs.Prelude.{◌≡◌, [], true, is_some, map, string_bytes, unwrap_or, Some, IfOk};
ghost use Rattle.vx_base.specs.Openers.{OpenerState};
ghost use Rattle.vx_data.specs.Dtype.{dtype_view};
ghost use Rattle.vx_data.specs.declared.ptype.PType.TheVariants.{I32};
ghost use Rattle.vx_commands.specs.Command.{all_values, demo_of, Parses};
ghost use Rattle.vx_commands.specs.Demo.{demo_dtype, demo_options, demo_rows, DemoCause};
ghost use Rattle.vx_commands.specs.MadeFiles.{MakesFile};
ghost use Rattle.vx_commands.specs.Outside.{Keeps};
ghost use Rattle.vx_commands.specs.Performs.{Gathers};
ghost use Rattle.vx_generate.specs.Tables.{IsTable};
ghost use Rattle.vx_commands.specs.declared.command.Command.TheVariants as commands;
ghost use Rattle.vx_rows.specs.Rows.{column_view, AreWithin};

use crate::answer::Answer;
use crate::command::Command;
use crate::failure::Failure;
use crate::input::load_script;
use crate::made_file::MadeFile;
use crate::printable::Printable;
use std::alloc::{AllocError, Global};
use std::marker::Model;
use vx_base::{Alignment, ByteBuffer, Source};
use vx_data::{DType, PType, VortexSession};
use vx_file::{Script, ServeError, Served, serve_in_memory};
use vx_rows::Column;
use vx_text::value;
use vx_write::VortexWriteOptions;

/// The values of a demonstration.
#[derive(Drop)]
pub struct Values {
    values: Vec<i32>,
}

impl Model for Values {
    ghost use Rattle.std.specs.Prelude.{List, ℤ};

    ghost Value = { List ℤ };

    ghost view = { λ v. v.values.items };
}

impl Values {
    fn as_slice(&self) -> &[i32]
        ensures { result.now ≡ self.now }
    {
        self.values.as_slice()
    }
}

/// The arguments of `demo`.
#[derive(Drop)]
pub struct Demo {
    pub values: Values,
}

/// Whether each word spells a value.
fn are_values(words: &[String]) -> bool
    ensures { result ≡ is_some (all_values (map string_bytes words.now)) }
{
    for word in words {
        if value(word.as_str()).is_none() {
            return false;
        }
    }
    true
}

/// The values that words spell.
fn values_from(alloc: Global, words: &[String]) -> Result<Vec<i32>, AllocError>
    requires { is_some (all_values (map string_bytes words.now)) ≡ true }
    ensures { IfOk result (λ values. values.items ≡ unwrap_or (all_values (map string_bytes words.now)) []) }
{
    let mut values = Vec::new(alloc);
    for word in words {
        match value(word.as_str()) {
            Some(value) => values.push(value)?,
            None => unreachable!(),
        }
    }
    Ok(values)
}

/// The values as rows, of which none is null.
fn rows_of(alloc: Global, values: &[i32]) -> Result<Vec<Option<i128>>, AllocError>
    ensures rows { IfOk result (λ rows. rows.items ≡ map Some values.now) }
    ensures within { IfOk result (λ rows. AreWithin I32 rows.items) }
{
    let mut rows = Vec::new(alloc);
    for value in values {
        rows.push(Some(i128::from(*value)))?;
    }
    Ok(rows)
}

/// The values as a column.
#[tactic(auto, using(crate::proofs::DemoArms::all_there))]
fn column_of(alloc: Global, values: &[i32]) -> Result<Column, AllocError>
    ensures value { IfOk result (λ column. column_view column ≡ demo_rows values.now) }
    ensures table { IfOk result (λ column. IsTable demo_dtype (column_view column)) }
{
    let rows = rows_of(alloc, values)?;
    let column = Column::ints(alloc, PType::I32, &rows, false)?;
    prove!(column.len() <= usize::MAX);
    Ok(column)
}

/// What the file is written with: no statistics.
fn options(alloc: Global) -> Result<VortexWriteOptions, AllocError>
    ensures { IfOk result (λ o. o ≡ demo_options) }
{
    let session = VortexSession::new(alloc)?;
    let options = VortexWriteOptions::new(alloc, session)?;
    Ok(options.with_file_statistics(Vec::new(alloc)))
}

/// The type of the rows.
fn row_type() -> DType
    ensures { dtype_view result ≡ demo_dtype }
{
    DType::Int(PType::I32, false)
}

/// The file of some values.
fn made_file<'a>(alloc: Global, values: &[i32]) -> Result<MadeFile, Failure<'a>>
    ensures { MakesFile demo_options demo_dtype (demo_rows values.now) result }
{
    let column = column_of(alloc, values)?;
    let options = options(alloc)?;
    MadeFile::write(alloc, options, row_type(), &column)
}

/// Serves a script from the file of some values.
fn demonstrate<'a>(alloc: Global, values: &[i32], script: &Script) -> Result<Served, Failure<'a>>
    ensures { DemoCause values.now script.now result }
{
    let made = made_file(alloc, values)?;
    let file = ByteBuffer::from_vec(alloc, made.bytes, Alignment::none())?;
    match serve_in_memory(alloc, file, script) {
        Ok(served) => Ok(served),
        Err(ServeError::OutOfMemory) => Err(Failure::OutOfMemory),
        // The file is in the grammar.
        Err(ServeError::Open(_)) => unreachable!(),
        // No read of it fails, and there is no cache.
        Err(ServeError::Fault(_)) | Err(ServeError::CacheFault) => unreachable!(),
    }
}

impl Demo {
    /// At least one value.
    pub(crate) fn parse<'a>(alloc: Global, words: &'a [String]) -> Result<Command<'a>, Failure<'a>>
        ensures { Parses (demo_of (map string_bytes words.now)) result }
    {
        if words.is_empty() || !are_values(words) {
            return Err(Failure::Usage);
        }
        let values = values_from(alloc, words)?;
        Ok(Command::Demo(Demo {
            values: Values { values },
        }))
    }

    /// What was served.
    pub(crate) fn answer<'a, I: Source>(
        &self,
        alloc: Global,
        input: &mut I,
    ) -> Result<Answer<'a>, Failure<'a>>
        ensures gathers { (files : OpenerState) → Gathers (commands.Demo self.now) (I.state input.old) (I.state input.new) files files result }
        ensures keeps { (files : OpenerState) → Keeps (commands.Demo self.now) (I.state input.old) (I.state input.new) files files }
    {
        let script = load_script(alloc, input)?;
        let served = demonstrate(alloc, self.values.as_slice(), &script)?;
        Ok(Answer::Served(Printable::new(alloc, served)?))
    }
}
