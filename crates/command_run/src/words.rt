// What words ask for.

ghost use Rattle.std.specs.Prelude.{List, ◌≡◌, Some, None, IfOk, IsErrOf};
ghost use Rattle.command_words.specs.Vocabulary.{Row, Use, row_named, row_of, texts_of, HoldsCall};
ghost use Rattle.command_run.specs.Commands.{table, command_of, IsRequest, Asks};
ghost use Rattle.command_run.specs.Commands as asked;
ghost use Rattle.command_run.specs.Laws.{AreLawful};

use crate::request::Request;
use command_words::forms::Entry;
use command_words::requests::words_found;
use command_words::typed::RequestFault;
use command_words::values::Values;
use std::alloc::Global;

/// What the words ask for.
pub fn read_request<'a, R: Request<'a>>(
    alloc: Global,
    words: &'a [String],
) -> Result<R, RequestFault>
    requires { AreLawful R.commands }
    ensures asks { IfOk result (λ r. Asks R.commands (texts_of words.now) (R.request r)) }
    ensures none { IsErrOf result RequestFault.NotUnderstood → (q : asked.Request R.commands) → Asks R.commands (texts_of words.now) q → ⊥ }
{
    match words_found(alloc, R::rows(), words) {
        Ok(found) => request_named(alloc, name_of(found.call.row), &found.values),
        Err(fault) => Err(fault),
    }
}

/// The name in a row.
fn name_of(row: &Entry) -> &str
    ensures { result.now ≡ (row_of row.now).name }
{
    row.name
}

/// What the command of this name is asked for by the values of its words.
fn request_named<'a, R: Request<'a>>(
    alloc: Global,
    name: &str,
    values: &Values<'a>,
) -> Result<R, RequestFault>
    requires lawful { AreLawful R.commands }
    requires known { row_named (table R.commands) name.now ≡ None → ⊥ }
    ensures row { (row : Row) → row_named (table R.commands) name.now ≡ Some row → IfOk result (λ r. R.commands.row_for (command_of R.commands (R.request r)) ≡ row) }
    ensures ok { (row : Row) → row_named (table R.commands) name.now ≡ Some row → (uses : List Use) → HoldsCall row uses values.now → IfOk result (λ r. IsRequest R.commands uses (R.request r)) }
    ensures none { (row : Row) → row_named (table R.commands) name.now ≡ Some row → (uses : List Use) → HoldsCall row uses values.now → IsErrOf result RequestFault.NotUnderstood
        → (q : asked.Request R.commands) → R.commands.row_for (command_of R.commands q) ≡ row → IsRequest R.commands uses q → ⊥ }
{
    let Some(command) = R::named(name) else {
        unreachable!()
    };
    R::read(alloc, command, values)
}
