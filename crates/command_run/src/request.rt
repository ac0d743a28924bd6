// What a program says of its commands.

ghost use Rattle.std.specs.Prelude.{◌≡◌, ◌<◌, ◌≤◌, ℕ, List, None, length, map, option_map, IfOk, IsErrOf};
ghost use Rattle.command_words.specs.Vocabulary.{Use, row_named, row_of, HoldsCall, AreReadable};
ghost use Rattle.diagram.specs.declared.diagram.Diagram.{Diagram as Drawn};
ghost use Rattle.replies.specs.Vocabulary.{Remainder};
ghost use Rattle.command_run.specs.Commands.{CommandSet, table, command_of, file_of, format_of, IsRequest, AsksNothing};
ghost use Rattle.command_run.specs.Commands as asked;
ghost use Rattle.command_run.specs.Lines.{words_line};
ghost use Rattle.command_run.specs.Answers.{GivesOnWords, GivesOn, GivesSecond};

use command_words::forms::Entry;
use command_words::typed::RequestFault;
use command_words::values::Values;
use diagram::Diagram;
use replies::{Format, Reply};
use std::alloc::{AllocError, Global};

/// What the words alone give.
#[derive(Drop)]
pub enum AfterWords<'a> {
    /// The defined answer.
    Replied(Reply),
    /// The file of this name is read.
    Reads(&'a str),
}

/// What the file alone gives.
#[derive(Drop)]
pub enum AfterFile<S> {
    /// The defined answer.
    Replied(Reply),
    /// The second input is read.
    Continues(S),
}

/// What is left to answer once the file was accepted, where a second input is read. The diagram of the file is lent to it.
pub trait SecondInput: Drop {
    /// What is left on a diagram.
    ghost left: { Drawn → Self → Remainder };

    /// The name of the second input.
    fn second(&self) -> &str
        ensures { (d : Drawn) → result.now ≡ (left d self.now).second };

    /// The most bytes of the second input.
    fn limit(&self) -> u64
        ensures limit { (d : Drawn) → result ≡ (left d self.now).limit }
        ensures least { 1048576 ≤ result };

    /// The reply on the bytes of the second input.
    fn reply(&self, alloc: Global, diagram: &Diagram, other: &[u8]) -> Result<Reply, AllocError>
        requires limit { length other.now ≤ (left diagram.now self.now).limit }
        requires accepted { (left diagram.now self.now).known }
        ensures { IfOk result (GivesSecond (left diagram.now self.now) other.now) };

    /// The reply where the second input has more bytes than its limit.
    fn long_reply(&self, alloc: Global, diagram: &Diagram) -> Result<Reply, AllocError>
        ensures { IfOk result (λ reply. (other : List ℕ) → (left diagram.now self.now).limit < length other → GivesSecond (left diagram.now self.now) other reply) };
}

/// What words ask of a program, whose commands these are.
pub trait Request<'a>: Sized + Drop {
    /// A command.
    type Command: Copy;

    /// What is left where a second input is read.
    type Second: SecondInput;

    /// The commands.
    ghost commands: { CommandSet };

    /// The command that a value stands for.
    ghost command: { Self.Command → commands.Command };

    /// The request that a value stands for.
    ghost request: { Self → asked.Request commands };

    /// The table of the commands.
    fn rows() -> &'static [Entry]
        ensures rows { map row_of result.now ≡ table commands }
        ensures readable { AreReadable (map row_of result.now) };

    /// The line for words that aren't understood, with the names of the commands.
    fn words_line() -> &'static [u8]
        ensures { result.now ≡ words_line commands };

    /// The command of this name.
    fn named(name: &str) -> Option<Self::Command>
        ensures { option_map (λ it. commands.row_for (command it)) result ≡ row_named (table commands) name.now };

    /// What a command is asked for by the values of its words.
    fn read(alloc: Global, it: Self::Command, values: &Values<'a>) -> Result<Self, RequestFault>
        ensures row { IfOk result (λ r. command_of commands (request r) ≡ command it) }
        ensures ok { (uses : List Use) → HoldsCall (commands.row_for (command it)) uses values.now → IfOk result (λ r. IsRequest commands uses (request r)) }
        ensures none { (uses : List Use) → HoldsCall (commands.row_for (command it)) uses values.now → IsErrOf result RequestFault.NotUnderstood → AsksNothing commands (command it) uses };

    /// The format of the answer.
    fn format(&self) -> Format
        ensures { result ≡ format_of commands (request self.now) };

    /// What the words alone give.
    fn after_words(&self, alloc: Global) -> Result<AfterWords<'a>, AllocError>
        ensures { IfOk result (GivesOnWords commands (request self.now)) };

    /// What a command gives on the diagram of its file.
    fn reply_on(
        self,
        alloc: Global,
        diagram: &Diagram,
    ) -> Result<AfterFile<Self::Second>, AllocError>
        requires { file_of commands (request self) ≡ None → ⊥ }
        ensures { IfOk result (GivesOn (Self.Second.left diagram.now) commands (request self) diagram.now) };
}
