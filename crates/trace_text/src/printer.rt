//! Appends the text of a trace: a line for its sizes, for its bounds of a feed, for each block, for each mapping and for each operation.
ghost use Rattle.std.specs.Prelude.{◌≡◌, ◌++◌, OnOk, OnErr, IfOk, string_bytes};
ghost use Rattle.trace_text.specs.TraceText.{lines_text, text_of_trace};
ghost use Rattle.trace_text.specs.declared.words.Line.TheVariants.{Declared, Mapped, Operation};

use crate::line_words::{BlockWords, BoundsWords, SizesWords};
use crate::mapping::Mapping;
use crate::op::Op;
use crate::trace::Trace;
use blk_ptr::{NoMemory, Ptr};
use std::alloc::{AllocError, Global};
use std::fmt::Write;

/// Appends the text of a trace, which reads back as that trace. After [`NoMemory`] `out` is as before.
pub fn print_trace(alloc: Global, trace: &Trace, out: &mut Vec<u8>) -> Result<(), NoMemory>
    ensures ok { OnOk result (out.new.items ≡ out.old.items ++ text_of_trace trace.now) }
    ensures err { OnErr result (out.new.items ≡ out.old.items) }
{
    let text = written(alloc, trace)?;
    out.extend_from_slice(text.as_bytes())?;
    Ok(())
}

/// The text of a trace.
fn written(alloc: Global, trace: &Trace) -> Result<String, AllocError>
    ensures { IfOk result (λ text. string_bytes text ≡ text_of_trace trace.now) }
{
    let config = trace.config;
    let mut text = String::new(alloc);
    write!(text, "{}\n", SizesWords(config))?;
    write!(text, "{}\n", BoundsWords(config.bounds))?;
    write_blocks(&mut text, trace.blocks.as_slice())?;
    write_objects(&mut text, trace.objects.as_slice())?;
    write_ops(&mut text, trace.ops.as_slice())?;
    Ok(text)
}

/// Appends a line for each block.
fn write_blocks(text: &mut String, blocks: &[Ptr]) -> Result<(), AllocError>
    ensures { OnOk result (string_bytes text.new ≡ string_bytes text.old ++ lines_text Declared blocks.now) }
{
    for ptr in blocks {
        write!(text, "{}\n", BlockWords(*ptr))?;
    }
    Ok(())
}

/// Appends a line for each block of an object that is mapped.
fn write_objects(text: &mut String, objects: &[Mapping]) -> Result<(), AllocError>
    ensures { OnOk result (string_bytes text.new ≡ string_bytes text.old ++ lines_text Mapped objects.now) }
{
    for mapping in objects {
        write!(text, "{mapping}\n")?;
    }
    Ok(())
}

/// Appends a line for each operation.
fn write_ops(text: &mut String, ops: &[Op]) -> Result<(), AllocError>
    ensures { OnOk result (string_bytes text.new ≡ string_bytes text.old ++ lines_text Operation ops.now) }
{
    for op in ops {
        write!(text, "{op}\n")?;
    }
    Ok(())
}
