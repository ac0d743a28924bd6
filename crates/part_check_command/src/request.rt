//! What `check` is asked: the same with certificates in parts.

ghost use Rattle.std.specs.Prelude.{List, IfOk, IsErrOf};
ghost use Rattle.command_words.specs.Vocabulary.{Use, HoldsCall};
ghost use Rattle.replies.specs.Command.{AsksNothing};
ghost use Rattle.check_command.specs.Vocabulary.{check_row, request_of, IsRequest};
ghost use Rattle.part_check_command.specs.Command.{part_check_command};

use check_command::Request;
use command_words::typed::RequestFault;
use command_words::values::Values;
use std::alloc::Global;

/// What the words ask for, exactly where their values are what they have to be.
pub fn read_request<'a>(alloc: Global, values: &Values<'a>) -> Result<Request<'a>, RequestFault>
    ensures ok { (uses : List Use) → HoldsCall check_row uses values.now → IfOk result (λ r. IsRequest uses (request_of r)) }
    ensures none { (uses : List Use) → HoldsCall check_row uses values.now → IsErrOf result RequestFault.NotUnderstood → AsksNothing part_check_command uses }
{
    Request::read_named(alloc, values)
}
