//! The instruction that a machine reads under its API version.

ghost use Rattle.std.specs.Prelude.{◌≡◌, IfOk};
ghost use Rattle.model_machine.specs.Instructions.{instruction_under};
ghost use Rattle.machine_instructions.specs.Pushes.{PushesAnElement};

use machine_instructions::instruction_of;
use model_database::Api;
use model_machine::{Instruction, StackOperation};
use std::alloc::{AllocError, Global};

/// Returns the instruction that a value packs: a tuple of a name, a Unicode or a byte string, and for PUSH one
/// element more. None where the value is no such tuple, or the name none of this API version.
#[tactic(auto, unfolding(model_machine::specs::Instructions::instruction_under))]
pub fn instruction_under(
    alloc: Global,
    api: Api,
    value: &[u8],
) -> Result<Option<Instruction>, AllocError>
    ensures instruction { IfOk result (λ instruction. instruction ≡ instruction_under api value.now) }
    ensures element { IfOk result PushesAnElement }
{
    match (api, instruction_of(alloc, value)?) {
        (Api::V500, Some(Instruction::OnStack(StackOperation::TuplePackWithVersionstamp))) => {
            Ok(None)
        }
        (_, instruction) => Ok(instruction),
    }
}
