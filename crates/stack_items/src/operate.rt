//! Each operation by its name.

ghost use Rattle.model_machine.specs.StackOperations.{operated};
ghost use Rattle.stack_items.specs.Pops.{Does};

use crate::fault::StackFault;
use crate::stack::Stack;
use model_machine::StackOperation;

impl Stack {
    /// Does one operation, run as the instruction of this number. What each does, and what it leaves after a refusal, is
    /// said at its own call.
    #[tactic(auto, unfolding(model_machine::specs::StackOperations::operated))]
    pub fn operate(&mut self, operation: StackOperation, instruction: u64) -> Result<(), StackFault>
        ensures { Does result (operated operation instruction self.old) self.old self.new }
    {
        match operation {
            StackOperation::Dup => self.dup(instruction),
            StackOperation::EmptyStack => self.empty_stack(instruction),
            StackOperation::Swap => self.swap(instruction),
            StackOperation::Pop => self.pop(instruction),
            StackOperation::Sub => self.sub(instruction),
            StackOperation::Concat => self.concat(instruction),
            StackOperation::WaitFuture => self.wait_future(instruction),
            StackOperation::TuplePack => self.tuple_pack(instruction),
            StackOperation::TuplePackWithVersionstamp => self.tuple_pack_with_versionstamp(
                instruction,
            ),
            StackOperation::TupleUnpack => self.tuple_unpack(instruction),
            StackOperation::TupleRange => self.tuple_range(instruction),
            StackOperation::TupleSort => self.tuple_sort(instruction),
            StackOperation::GetApproximateSize => self.get_approximate_size(instruction),
            StackOperation::GetEstimatedRangeSize => self.get_estimated_range_size(instruction),
            StackOperation::UnitTests => self.unit_tests(instruction),
        }
    }
}
