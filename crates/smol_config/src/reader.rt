//! The whole reader.
ghost use Rattle.std.specs.Prelude.{◌≡◌, List, Ok, IfOk, IfErr};
ghost use Rattle.smol_text.specs.Spans.{stated_lines};
ghost use Rattle.smol_line.specs.Fault.{TellsFault};
ghost use Rattle.smol_config.specs.Reader.{config_from, config_of};
ghost use Rattle.smol_config.specs.Said.{Said};
ghost use Rattle.smol_config.specs.Tables.{Holds, IsReached};
ghost use Rattle.smol_config.specs.Whole.{whole_in};
ghost use Rattle.smol_config.specs.Told.{lines_told};

use crate::tables::Tables;
use crate::whole::finish;
use smol_blocks::told_at;
use smol_text::{Text, TextFault, split_lines};
use smol_types::{Config, ConfigFault, Kind};
use std::alloc::Global;

/// How long a configuration may be, in bytes.
const MOST_BYTES: usize = 4_194_304;

/// The line at which there are too many.
const LINE_TOO_MANY: u32 = 65_537;

// A fault of a text's lines as a fault of a configuration.
fn lines_told(fault: TextFault) -> ConfigFault
    ensures { result ≡ lines_told fault }
{
    match fault {
        TextFault::BadByte { line } => ConfigFault::At {
            line,
            kind: Kind::BadByte,
        },
        TextFault::OpenComment { line } => ConfigFault::At {
            line,
            kind: Kind::OpenComment,
        },
        TextFault::TooManyLines => ConfigFault::At {
            line: LINE_TOO_MANY,
            kind: Kind::TooMany,
        },
        TextFault::OutOfMemory => ConfigFault::OutOfMemory,
    }
}

// What the lines read so far make together, or the fault of the whole.
fn finish_whole(alloc: Global, tables: Tables) -> Result<Config, ConfigFault>
    requires { IsReached tables }
    ensures accepted { IfOk result (λ config. (before : List Said) → Holds tables before → whole_in before ≡ Ok config) }
    ensures refused { IfErr result (λ fault. (before : List Said) → Holds tables before → TellsFault fault (whole_in before)) }
{
    match finish(alloc, tables) {
        Ok(config) => Ok(config),
        Err(refusal) => Err(told_at(0, refusal)),
    }
}

// Reads the lines of a text that make statements.
fn read_lines(alloc: Global, text: &Text) -> Result<Config, ConfigFault>
    ensures accepted { IfOk result (λ config. config_from (stated_lines text.now) ≡ Ok config) }
    ensures refused { IfErr result (λ fault. TellsFault fault (config_from (stated_lines text.now))) }
{
    let mut tables = Tables::new(alloc);
    let mut at = 0;
    while at < text.len() {
        at = tables.read(alloc, text, at)?;
    }
    finish_whole(alloc, tables)
}

/// Reads a configuration of any length. The answer is what the text says, or its first fault, unless memory runs out.
#[tactic(auto, unfolding(crate::specs::Reader::config_of))]
pub fn read_config(alloc: Global, bytes: &[u8]) -> Result<Config, ConfigFault>
    ensures accepted { IfOk result (λ config. config_of bytes.now ≡ Ok config) }
    ensures refused { IfErr result (λ fault. TellsFault fault (config_of bytes.now)) }
{
    if bytes.len() > MOST_BYTES {
        return Err(ConfigFault::At {
            line: 0,
            kind: Kind::TooLong,
        });
    }
    match split_lines(alloc, bytes) {
        Ok(text) => read_lines(alloc, &text),
        Err(fault) => Err(lines_told(fault)),
    }
}
