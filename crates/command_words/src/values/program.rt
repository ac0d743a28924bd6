// A command as a program of `clap`, and what it makes of words of the form.

ghost use Rattle.std.specs.Prelude.{◌≡◌, false, [], ◌∷◌, IfOk, IfErr, map, fold};
ghost use Rattle.clap.specs.Simple.{app_of, with_rule, with_subcommand};
ghost use Rattle.clap.specs.Values.{kind_of};
ghost use Rattle.clap.specs.Walk.{rule_of};
ghost use Rattle.clap.specs.declared.builder.command.Command.TheViews.{out-Command};
ghost use Rattle.command_words.specs.Form.{IsCall};
ghost use Rattle.command_words.specs.Views.{row_of, texts, texts_of, uses_in};
ghost use Rattle.command_words.specs.App.{app_of_table, app_of_row, start, kind_rule};
ghost use Rattle.command_words.specs.Gives.{GivesCall};
ghost use Rattle.command_words.specs.Readable.{IsReadable};

use crate::forms::{Call, Entry};
use clap::error::ErrorKind;
use clap::{Arg, ArgAction, ArgMatches, Command as Program, Error};
use std::alloc::{AllocError, Global};

/// What a name of a row stands for: a positional or an option, each without or with brackets, or a flag.
#[derive(Clone, Copy)]
pub enum Kind {
    Positional,
    Extra,
    Needed,
    Choice,
    Flag,
}

// The argument of a kind, with its name.
fn arg_of<'a>(alloc: Global, kind: Kind, name: &'a str) -> Arg<'a>
    ensures rule { rule_of result ≡ kind_rule kind name.entry.now }
    ensures local { result.global ≡ false }
{
    match kind {
        Kind::Positional => Arg::new(alloc, name).required(true),
        Kind::Extra => Arg::new(alloc, name),
        Kind::Needed => Arg::new(alloc, name).long(name).required(true),
        Kind::Choice => Arg::new(alloc, name).long(name),
        Kind::Flag => Arg::new(alloc, name).long(name).action(ArgAction::SetTrue),
    }
}

// The program with one more argument, which serves it alone.
fn with_arg<'a>(program: Program<'a>, arg: Arg<'a>) -> Result<Program<'a>, AllocError>
    requires { arg.global ≡ false }
    ensures shape { IfOk result (λ c.
        app_of c ≡ with_rule (app_of program.entry) (rule_of arg.entry)) }
    ensures local { IfOk result (λ c.
        (out-Command c).has_globals ≡ (out-Command program.entry).has_globals) }
{
    program.arg(arg)
}

// The program with one more argument for each name.
fn with_names<'a>(
    alloc: Global,
    program: Program<'a>,
    kind: Kind,
    names: &[&'a str],
) -> Result<Program<'a>, AllocError>
    ensures shape { IfOk result (λ c.
        app_of c ≡ fold with_rule (app_of program.entry) (map (kind_rule kind) (texts names.now))) }
    ensures local { IfOk result (λ c.
        (out-Command c).has_globals ≡ (out-Command program.entry).has_globals) }
{
    let mut program = program;
    for name in names {
        program = with_arg(program, arg_of(alloc, kind, name))?;
    }
    Ok(program)
}

// A command with its arguments.
fn row_program<'a>(alloc: Global, row: &'a Entry) -> Result<Program<'a>, AllocError>
    ensures shape { IfOk result (λ c. app_of c ≡ app_of_row (row_of row.now)) }
    ensures local { IfOk result (λ c. (out-Command c).has_globals ≡ false) }
{
    let program = Program::new(alloc, row.name);
    let program = with_names(alloc, program, Kind::Positional, row.positionals)?;
    let program = with_names(alloc, program, Kind::Extra, row.optional)?;
    let program = with_names(alloc, program, Kind::Needed, row.required)?;
    let program = with_names(alloc, program, Kind::Choice, row.options)?;
    let program = with_names(alloc, program, Kind::Flag, row.flags)?;
    Ok(program)
}

// The program with one more command.
fn with_command<'a>(program: Program<'a>, command: Program<'a>) -> Result<Program<'a>, AllocError>
    requires { (out-Command command).has_globals ≡ false }
    ensures { IfOk result (λ c.
        app_of c ≡ with_subcommand (app_of program.entry) (app_of command.entry).top) }
{
    program.subcommand(command)
}

// The program without commands. The words come without the program's name.
fn start_program<'a>(alloc: Global) -> Program<'a>
    ensures { app_of result ≡ start }
{
    Program::new(alloc, "causal").no_binary_name(true)
}

// The program with the command of the row alone.
fn program_of<'a>(alloc: Global, row: &'a Entry) -> Result<Program<'a>, AllocError>
    ensures { IfOk result (λ c. app_of c ≡ app_of_table (row_of row.now ∷ [])) }
{
    let command = row_program(alloc, row)?;
    with_command(start_program(alloc), command)
}

/// The matches of words of the form, by the row of their command: only want of memory is refused.
pub fn read_matches<'a>(
    alloc: Global,
    words: &'a [String],
    call: &Call<'a>,
) -> Result<ArgMatches<'a>, Error>
    requires readable { IsReadable (row_of call.now.row.now ∷ []) }
    requires call { IsCall (row_of call.now.row.now ∷ []) (texts_of words.now) (row_of call.now.row.now)
        (uses_in call.now.uses) }
    ensures ok { IfOk result (λ m. GivesCall (row_of call.now.row.now) (uses_in call.now.uses) m) }
    ensures err { IfErr result (λ e. kind_of e ≡ ErrorKind.OutOfMemory) }
{
    let program = program_of(alloc, call.row)?;
    program.try_get_matches_from(words)
}
