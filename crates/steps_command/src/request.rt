//! What `steps` is asked: the same as `check`.

ghost use Rattle.std.specs.Prelude.{List, IfOk, IsErrOf};
ghost use Rattle.command_words.specs.Vocabulary.{Use, HoldsCall};
ghost use Rattle.replies.specs.Command.{AsksNothing};
ghost use Rattle.check_command.specs.Vocabulary.{request_of, IsRequest};
ghost use Rattle.steps_command.specs.Command.{steps_command};
ghost use Rattle.steps_command.specs.Requests.{steps_row};

use check_command::Request;
use command_words::forms::Entry;
use command_words::typed::RequestFault;
use command_words::values::Values;
use std::alloc::Global;

/// `steps FILE CERTIFICATE [--experiments E] [--json]`
pub const ROW: Entry = Entry {
    name: "steps",
    positionals: &["file", "certificate"],
    optional: &[],
    required: &[],
    options: &["experiments"],
    flags: &["json"],
};

/// What the words ask for, exactly where their values are what they have to be.
pub fn read_request<'a>(alloc: Global, values: &Values<'a>) -> Result<Request<'a>, RequestFault>
    ensures ok { (uses : List Use) → HoldsCall steps_row uses values.now → IfOk result (λ r. IsRequest uses (request_of r)) }
    ensures none { (uses : List Use) → HoldsCall steps_row uses values.now → IsErrOf result RequestFault.NotUnderstood → AsksNothing steps_command uses }
{
    Request::read_named(alloc, values)
}
