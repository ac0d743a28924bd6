// The commands: each one's row and request stand in its crate.

ghost use Rattle.std.specs.Prelude.{◌≡◌, map, option_map};
ghost use Rattle.command_words.specs.Vocabulary.{row_named, row_of, AreReadable};
ghost use Rattle.causal_cli.specs.Commands.{all_commands, row_for, table};

use command_words::forms::Entry;

/// A command.
#[derive(Clone, Copy)]
pub enum Command {
    Graph,
    Separate,
    Rule,
    Identify,
    Check,
    Adjust,
    Evaluate,
    Equivalent,
    Survey,
    Implications,
    Surrogate,
    Bounds,
    Treated,
    Instruments,
    Natural,
    Steps,
}

static COMMANDS: [Command; 16] = [
    Command::Graph,
    Command::Separate,
    Command::Rule,
    Command::Identify,
    Command::Check,
    Command::Adjust,
    Command::Evaluate,
    Command::Equivalent,
    Command::Survey,
    Command::Implications,
    Command::Surrogate,
    Command::Bounds,
    Command::Treated,
    Command::Instruments,
    Command::Natural,
    Command::Steps,
];

static TABLE: [Entry; 16] = [
    separation_commands::graph::ROW,
    separation_commands::separate::ROW,
    separation_commands::rule::ROW,
    identify_command::ROW,
    check_command::ROW,
    adjust_command::ROW,
    evaluate_command::ROW,
    equivalent_command::ROW,
    survey_command::ROW,
    implications_command::ROW,
    surrogate_command::ROW,
    bounds_command::ROW,
    treated_command::ROW,
    instruments_command::ROW,
    natural_command::ROW,
    steps_command::ROW,
];

/// The row of a command.
fn row_for(command: Command) -> Entry
    ensures { row_of result ≡ row_for command }
{
    match command {
        Command::Graph => separation_commands::graph::ROW,
        Command::Separate => separation_commands::separate::ROW,
        Command::Rule => separation_commands::rule::ROW,
        Command::Identify => identify_command::ROW,
        Command::Check => check_command::ROW,
        Command::Adjust => adjust_command::ROW,
        Command::Evaluate => evaluate_command::ROW,
        Command::Equivalent => equivalent_command::ROW,
        Command::Survey => survey_command::ROW,
        Command::Implications => implications_command::ROW,
        Command::Surrogate => surrogate_command::ROW,
        Command::Bounds => bounds_command::ROW,
        Command::Treated => treated_command::ROW,
        Command::Instruments => instruments_command::ROW,
        Command::Natural => natural_command::ROW,
        Command::Steps => steps_command::ROW,
    }
}

/// The table of the commands.
pub fn rows() -> &'static [Entry]
    ensures rows { map row_of result.now ≡ table }
    ensures readable { AreReadable (map row_of result.now) }
{
    &TABLE
}

/// All commands, in the order of the table.
fn all_commands() -> &'static [Command]
    ensures { result.now ≡ all_commands }
{
    &COMMANDS
}

/// The command of this name.
pub fn command_named(name: &str) -> Option<Command>
    ensures { option_map row_for result ≡ row_named table name.now }
{
    for command in all_commands() {
        if row_for(*command).name == name {
            return Some(*command);
        }
    }
    None
}
