//! Instruction text, both ways.

ghost use Rattle.std.specs.Prelude.{◌≡◌, ℕ, List, ◌<◌, ◌++◌, length, IfOk, IfErr, OnOk};
ghost use Rattle.model_lines.specs.Inputs.{pair_lines};
ghost use Rattle.model_lines.specs.Reading.{input_limit};
ghost use Rattle.dump_text.specs.Reading.{Fails};
ghost use Rattle.instr_grammar.specs.Lines.{assembled};
ghost use Rattle.text_commands.specs.Texts.{IsAssembled, IsDisassembled, IsDisasmFault};

use crate::fault::TextFault;
use dump_text::{Form, LineFault, read_lines, write_pair_line};
use instr_text::{assemble, disassemble};
use key_bytes::Pairs;
use std::alloc::{AllocError, Global};

// The lines of pairs, in their order.
fn pair_lines(alloc: Global, pairs: &Pairs) -> Result<Vec<u8>, AllocError>
    ensures { IfOk result (λ lines. lines.items ≡ pair_lines pairs.now) }
{
    let mut lines = Vec::new(alloc);
    for pair in pairs.as_slice() {
        write_pair_line(&mut lines, pair.key.as_slice(), pair.value.as_slice())?;
    }
    Ok(lines)
}

/// Makes the lines of pairs that an instruction text stands for, in the order of the text. An error is the first fault of the
/// text, or that memory ran out.
pub fn asm(alloc: Global, text: &[u8]) -> Result<Vec<u8>, LineFault>
    // What comes out are the lines of what the text stands for.
    ensures found { IfOk result (λ lines. IsAssembled text.now lines.items) }
    // Which fault it is.
    ensures exact { IfErr result (λ fault. Fails fault (assembled text.now)) }
    // Bytes behind the first one past the limit change nothing.
    ensures past { (rest : List ℕ) → input_limit < length text.now
        → IfErr result (λ fault. Fails fault (assembled (text.now ++ rest))) }
{
    let pairs = assemble(alloc, text)?;
    Ok(pair_lines(alloc, &pairs)?)
}

/// Makes the instruction text of lines of pairs. An error is the first fault of the lines, or the first pair that is no
/// instruction there, or that memory ran out.
pub fn disasm(alloc: Global, lines: &[u8]) -> Result<Vec<u8>, TextFault>
    // What comes out is the text that stands for what the lines say.
    ensures found { IfOk result (λ text. IsDisassembled lines.now text.items) }
    // Which fault it is.
    ensures exact { IfErr result (IsDisasmFault lines.now) }
    // Bytes behind the first one past the limit change nothing.
    ensures past { (rest : List ℕ) → input_limit < length lines.now
        → IfErr result (IsDisasmFault (lines.now ++ rest)) }
{
    let input = read_lines(alloc, lines, Form::Run)?;
    let text = disassemble(alloc, &input.pairs)?;
    Ok(Vec::from_slice(alloc, text.as_slice())?)
}
