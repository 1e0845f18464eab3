//! Laws of instruction text: its names are those that a machine takes, what a text stands for are instructions, and a
//! text that is assembled comes back when its pairs are taken apart.
//!
//! They are laws of the definitions by which texts are read (`instr_grammar`) and instructions are run
//! (`model_machine`), proved once here.
#![tactic(auto)]

ghost use Rattle.std.specs.Prelude.{◌≡◌, true, List, ℕ, Ok, is_some};
ghost use Rattle.model_lines.specs.Reading.{Entry};
ghost use Rattle.model_machine.specs.Instructions as machine;
ghost use Rattle.instr_grammar.specs.Names.{names, is_among};
ghost use Rattle.instr_grammar.specs.Texts.{Instruction, Section, IsInstruction, IsTextOf, packed, text_of, asm};
ghost use Rattle.instr_grammar.specs.Lines.{assembled};
ghost use Rattle.instr_grammar.specs.Taking.{disassembled};

/// Shows to a proof that the names of instruction text are the names that a machine takes without an element, and
/// that it takes each instruction of a text. It does nothing when it runs.
pub fn texts_are_instructions()
    ensures names { (name : List ℕ) → is_among name names ≡ is_some (machine.bare_instruction name) }
    ensures instructions { (one : Instruction) → IsInstruction one → is_some (machine.instruction_of (packed one)) ≡ true }
{}

/// Shows to a proof that a text that is assembled is the one that its pairs are taken apart as, and that the text of
/// sections, where it is within the limits, is assembled as the pairs that are taken apart as it. It does nothing when
/// it runs.
pub fn calls_undo_each_other()
    ensures texts { (text : List ℕ) (pairs : List Entry) → assembled text ≡ Ok pairs → disassembled pairs ≡ Ok text }
    ensures sections { (sections : List Section) → IsTextOf (text_of sections) sections
        → (disassembled (asm sections) ≡ Ok (text_of sections)) × (assembled (text_of sections) ≡ Ok (asm sections)) }
{}
