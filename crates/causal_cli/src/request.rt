// What words ask for, and what a request gives on its diagram.

ghost use Rattle.std.specs.Prelude.{◌≡◌, List, None, IfOk, IsErrOf, map, option_map};
ghost use Rattle.command_words.specs.Vocabulary.{Use, row_named, row_of, HoldsCall, AreReadable};
ghost use Rattle.diagram.specs.declared.diagram.Diagram.{Diagram as Drawn};
ghost use Rattle.replies.specs.Vocabulary.{told_of};
ghost use Rattle.command_run.specs.Vocabulary.{words_line, command_of, file_of, IsRequest, AsksNothing, DiagramAnswer, GivesOnWords, GivesOn};
ghost use Rattle.command_run.specs.Commands as asked;
ghost use Rattle.causal_cli.specs.Commands.{commands, table, row_for, request_of, left_of};

use crate::commands::{Command, command_named, rows};
use crate::second::SecondInput;
use adjust_command::adjust_reply;
use bounds_command::ask_first;
use command_run::{AfterFile, AfterWords};
use command_words::forms::Entry;
use command_words::typed::RequestFault;
use command_words::values::Values;
use diagram::Diagram;
use equivalent_command::accept_first;
use evaluate_command::{first_reply, identify_first};
use evaluate_natural::identify_nested;
use evaluate_treated::identify_among;
use identify_command::identify_reply;
use implications_command::{counted_pairs, pairs_reply};
use instruments_command::instruments_reply;
use natural_command::natural_reply;
use part_check_command::accept_experiments;
use replies::{Format, Reply};
use separation_commands::graph::graph_reply;
use separation_commands::rule::rule_reply;
use separation_commands::separate::separate_reply;
use std::alloc::{AllocError, Global};
use surrogate_command::surrogate_reply;
use survey_command::survey_reply;
use treated_command::treated_reply;

/// What words ask for.
#[derive(Drop)]
pub enum Request<'a> {
    Graph(separation_commands::graph::Request<'a>),
    Separate(separation_commands::separate::Request<'a>),
    Rule(separation_commands::rule::Request<'a>),
    Identify(identify_command::Request<'a>),
    Check(check_command::Request<'a>),
    Adjust(adjust_command::Request<'a>),
    Evaluate(evaluate_command::Request<'a>),
    EvaluateTreated(evaluate_treated::Request<'a>),
    EvaluateNatural(evaluate_natural::Request<'a>),
    Equivalent(equivalent_command::Request<'a>),
    Implications(implications_command::Request<'a>),
    Survey(survey_command::Request),
    Surrogate(surrogate_command::Request<'a>),
    Bounds(bounds_command::Request<'a>),
    Treated(treated_command::Request<'a>),
    Instruments(instruments_command::Request<'a>),
    Natural(natural_command::Request<'a>),
    Steps(check_command::Request<'a>),
}

impl<'a> command_run::Request<'a> for Request<'a> {
    type Command = Command;

    type Second = SecondInput<'a>;

    ghost commands = { commands };

    ghost command = { λ c. c };

    ghost request = { request_of };

    fn rows() -> &'static [Entry]
        ensures rows { map row_of result.now ≡ table }
        ensures readable { AreReadable (map row_of result.now) }
    {
        rows()
    }

    fn words_line() -> &'static [u8]
        ensures { result.now ≡ words_line commands }
    {
        b"causal: words not understood; commands are graph separate rule identify check adjust evaluate equivalent survey implications surrogate bounds treated instruments natural steps\n"
    }

    fn named(name: &str) -> Option<Command>
        ensures { option_map row_for result ≡ row_named table name.now }
    {
        command_named(name)
    }

    fn read(alloc: Global, it: Command, values: &Values<'a>) -> Result<Self, RequestFault> {
        read_values(alloc, it, values)
    }

    fn format(&self) -> Format {
        match self {
            Request::Graph(asked) => asked.format,
            Request::Separate(asked) => asked.format,
            Request::Rule(asked) => asked.format,
            Request::Identify(asked) => asked.form.format,
            Request::Check(asked) => asked.format,
            Request::Adjust(asked) => asked.format,
            Request::Evaluate(asked) => asked.format,
            Request::EvaluateTreated(asked) => asked.effect.form.format,
            Request::EvaluateNatural(asked) => asked.effect.form.format,
            Request::Equivalent(asked) => asked.format,
            Request::Implications(asked) => asked.format,
            Request::Surrogate(asked) => asked.form.format,
            Request::Treated(asked) => asked.form.format,
            Request::Survey(asked) => asked.format,
            Request::Bounds(asked) => asked.format,
            Request::Instruments(asked) => asked.format,
            Request::Natural(asked) => asked.form.format,
            Request::Steps(asked) => asked.format,
        }
    }

    fn after_words(&self, alloc: Global) -> Result<AfterWords<'a>, AllocError> {
        match self {
            Request::Graph(asked) => Ok(AfterWords::Reads(asked.file)),
            Request::Separate(asked) => Ok(AfterWords::Reads(asked.file)),
            Request::Rule(asked) => Ok(AfterWords::Reads(asked.file)),
            Request::Identify(asked) => Ok(AfterWords::Reads(asked.file)),
            Request::Check(asked) => Ok(AfterWords::Reads(asked.file)),
            Request::Adjust(asked) => Ok(AfterWords::Reads(asked.file)),
            Request::Evaluate(asked) => Ok(AfterWords::Reads(asked.file)),
            Request::EvaluateTreated(asked) => Ok(AfterWords::Reads(asked.effect.file)),
            Request::EvaluateNatural(asked) => Ok(AfterWords::Reads(asked.effect.file)),
            Request::Equivalent(asked) => Ok(AfterWords::Reads(asked.file)),
            Request::Implications(asked) => Ok(AfterWords::Reads(asked.file)),
            Request::Surrogate(asked) => Ok(AfterWords::Reads(asked.file)),
            Request::Treated(asked) => Ok(AfterWords::Reads(asked.file)),
            Request::Survey(asked) => survey(alloc, asked),
            Request::Bounds(asked) => Ok(AfterWords::Reads(asked.file)),
            Request::Instruments(asked) => Ok(AfterWords::Reads(asked.file)),
            Request::Natural(asked) => Ok(AfterWords::Reads(asked.file)),
            Request::Steps(asked) => Ok(AfterWords::Reads(asked.file)),
        }
    }

    fn reply_on(
        self,
        alloc: Global,
        diagram: &Diagram,
    ) -> Result<AfterFile<SecondInput<'a>>, AllocError> {
        reply_on(alloc, self, diagram)
    }
}

/// What the values of a command's words ask for.
fn read_values<'a>(
    alloc: Global,
    command: Command,
    values: &Values<'a>,
) -> Result<Request<'a>, RequestFault>
    ensures row { IfOk result (λ r. command_of commands (request_of r) ≡ command) }
    ensures ok { (uses : List Use) → HoldsCall (row_for command) uses values.now → IfOk result (λ r. IsRequest commands uses (request_of r)) }
    ensures none { (uses : List Use) → HoldsCall (row_for command) uses values.now → IsErrOf result RequestFault.NotUnderstood → AsksNothing commands command uses }
{
    match command {
        Command::Graph => Ok(Request::Graph(separation_commands::graph::Request::read(values)?)),
        Command::Separate => Ok(Request::Separate(separation_commands::separate::Request::read(
            alloc, values,
        )?)),
        Command::Rule => Ok(Request::Rule(separation_commands::rule::Request::read(
            alloc, values,
        )?)),
        Command::Identify => Ok(Request::Identify(identify_command::Request::read(alloc, values)?)),
        Command::Check => Ok(Request::Check(part_check_command::read_request(alloc, values)?)),
        Command::Adjust => Ok(Request::Adjust(adjust_command::Request::read(alloc, values)?)),
        Command::Evaluate => read_evaluate(alloc, values),
        Command::Equivalent => Ok(Request::Equivalent(equivalent_command::Request::read(
            alloc, values,
        )?)),
        Command::Implications => Ok(Request::Implications(implications_command::Request::read(
            values,
        )?)),
        Command::Survey => Ok(Request::Survey(survey_command::Request::read(values)?)),
        Command::Surrogate => Ok(Request::Surrogate(surrogate_command::Request::read(
            alloc, values,
        )?)),
        Command::Bounds => Ok(Request::Bounds(bounds_command::Request::read(alloc, values)?)),
        Command::Treated => Ok(Request::Treated(treated_command::Request::read(alloc, values)?)),
        Command::Instruments => Ok(Request::Instruments(instruments_command::Request::read(
            alloc, values,
        )?)),
        Command::Natural => Ok(Request::Natural(natural_command::Request::read(alloc, values)?)),
        Command::Steps => Ok(Request::Steps(steps_command::read_request(alloc, values)?)),
    }
}

/// What the values of words of `evaluate` ask for: an effect as it is, one among the treated, or a nested one.
fn read_evaluate<'a>(alloc: Global, values: &Values<'a>) -> Result<Request<'a>, RequestFault>
    ensures row { IfOk result (λ r. command_of commands (request_of r) ≡ Command.Evaluate) }
    ensures ok { (uses : List Use) → HoldsCall (row_for Command.Evaluate) uses values.now → IfOk result (λ r. IsRequest commands uses (request_of r)) }
    ensures none { (uses : List Use) → HoldsCall (row_for Command.Evaluate) uses values.now → IsErrOf result RequestFault.NotUnderstood
        → AsksNothing commands Command.Evaluate uses }
{
    if values.flag("treated") {
        let asked = evaluate_treated::Request::read(alloc, values)?;
        return Ok(Request::EvaluateTreated(asked));
    }
    if values.flag("natural") {
        let asked = evaluate_natural::Request::read(alloc, values)?;
        return Ok(Request::EvaluateNatural(asked));
    }
    let asked = evaluate_command::Request::read(alloc, values)?;
    Ok(Request::Evaluate(asked))
}

/// What a request gives on its diagram.
fn reply_on<'a>(
    alloc: Global,
    request: Request<'a>,
    diagram: &Diagram,
) -> Result<AfterFile<SecondInput<'a>>, AllocError>
    requires { file_of commands (request_of request) ≡ None → ⊥ }
    ensures { IfOk result (GivesOn (left_of diagram.now) commands (request_of request.entry) diagram.now) }
{
    match request {
        Request::Graph(asked) => replied(graph_reply(alloc, diagram, &asked)),
        Request::Separate(asked) => replied(separate_reply(alloc, diagram, &asked)),
        Request::Rule(asked) => replied(rule_reply(alloc, diagram, &asked)),
        Request::Identify(asked) => replied(identify_reply(alloc, diagram, &asked)),
        Request::Check(asked) => check_over(alloc, diagram, asked),
        Request::Adjust(asked) => replied(adjust_reply(alloc, diagram, &asked)),
        Request::Evaluate(asked) => evaluate_over(alloc, diagram, asked),
        Request::EvaluateTreated(asked) => evaluate_among(alloc, diagram, asked),
        Request::EvaluateNatural(asked) => evaluate_nested(alloc, diagram, asked),
        Request::Equivalent(asked) => compare_with(alloc, diagram, asked),
        Request::Implications(asked) => list_implications(alloc, diagram, asked),
        Request::Survey(_) => unreachable!(),
        Request::Surrogate(asked) => replied(surrogate_reply(alloc, diagram, &asked)),
        Request::Bounds(asked) => bound_over(alloc, diagram, asked),
        Request::Treated(asked) => replied(treated_reply(alloc, diagram, &asked)),
        Request::Instruments(asked) => replied(instruments_reply(alloc, diagram, &asked)),
        Request::Natural(asked) => replied(natural_reply(alloc, diagram, &asked)),
        Request::Steps(asked) => explain_over(alloc, diagram, asked),
    }
}

/// What a survey gives.
fn survey<'a>(alloc: Global, asked: &survey_command::Request) -> Result<AfterWords<'a>, AllocError>
    ensures { IfOk result (GivesOnWords commands (request_of (Request.Survey asked.now))) }
{
    match survey_reply(alloc, asked) {
        Ok(reply) => Ok(AfterWords::Replied(reply)),
        Err(refused) => Err(refused),
    }
}

/// What an evaluation gives on its diagram.
fn evaluate_over<'a>(
    alloc: Global,
    diagram: &Diagram,
    asked: evaluate_command::Request<'a>,
) -> Result<AfterFile<SecondInput<'a>>, AllocError>
    ensures { IfOk result (GivesOn (left_of diagram.now) commands (request_of (Request.Evaluate asked.entry)) diagram.now) }
{
    match identify_first(alloc, diagram, &asked) {
        evaluate_command::First::Answered(answer) => {
            replied(first_reply(alloc, diagram, &answer, asked.format))
        }
        evaluate_command::First::Found(found) => Ok(AfterFile::Continues(SecondInput::Evaluate {
            found,
            counts: asked.counts,
            count: asked.count,
            exact: asked.exact,
            zero: asked.zero,
            matched: asked.matched,
            format: asked.format,
        })),
    }
}

/// What an evaluation among the treated gives on its diagram.
fn evaluate_among<'a>(
    alloc: Global,
    diagram: &Diagram,
    asked: evaluate_treated::Request<'a>,
) -> Result<AfterFile<SecondInput<'a>>, AllocError>
    ensures { IfOk result (GivesOn (left_of diagram.now) commands (request_of (Request.EvaluateTreated asked.entry)) diagram.now) }
{
    let form = asked.effect.form;
    match identify_among(alloc, diagram, &asked) {
        evaluate_treated::First::Answered(answer) => {
            replied(evaluate_treated::first_reply(alloc, diagram, &answer, form))
        }
        evaluate_treated::First::Found(found) => Ok(AfterFile::Continues(
            SecondInput::EvaluateTreated {
                found,
                counts: asked.counts,
                count: asked.count,
                exact: asked.exact,
                form,
            },
        )),
    }
}

/// What an evaluation of a nested effect gives on its diagram.
fn evaluate_nested<'a>(
    alloc: Global,
    diagram: &Diagram,
    asked: evaluate_natural::Request<'a>,
) -> Result<AfterFile<SecondInput<'a>>, AllocError>
    ensures { IfOk result (GivesOn (left_of diagram.now) commands (request_of (Request.EvaluateNatural asked.entry)) diagram.now) }
{
    let form = asked.effect.form;
    match identify_nested(alloc, diagram, &asked) {
        evaluate_natural::First::Answered(answer) => {
            replied(evaluate_natural::first_reply(alloc, diagram, &answer, form))
        }
        evaluate_natural::First::Found(found) => Ok(AfterFile::Continues(
            SecondInput::EvaluateNatural {
                found,
                counts: asked.counts,
                count: asked.count,
                exact: asked.exact,
                form,
            },
        )),
    }
}

/// What a question of bounds gives on its diagram.
fn bound_over<'a>(
    alloc: Global,
    diagram: &Diagram,
    asked: bounds_command::Request<'a>,
) -> Result<AfterFile<SecondInput<'a>>, AllocError>
    ensures { IfOk result (GivesOn (left_of diagram.now) commands (request_of (Request.Bounds asked.entry)) diagram.now) }
{
    match ask_first(alloc, diagram, &asked)? {
        bounds_command::QuestionOrReply::Replied(reply) => Ok(AfterFile::Replied(reply)),
        bounds_command::QuestionOrReply::Asked(question) => Ok(AfterFile::Continues(
            SecondInput::Bounds {
                question,
                counts: asked.counts,
                count: asked.count,
                exact: asked.exact,
                format: asked.format,
            },
        )),
    }
}

/// A reply on the file alone.
fn replied<'a>(made: Result<Reply, AllocError>) -> Result<AfterFile<SecondInput<'a>>, AllocError>
    ensures { (w : asked.Request commands) (d : Drawn) → IfOk made (λ reply. DiagramAnswer commands w d reply.outcome (told_of reply)) → IfOk result (GivesOn (left_of d) commands w d) }
{
    match made {
        Ok(reply) => Ok(AfterFile::Replied(reply)),
        Err(refused) => Err(refused),
    }
}

/// What a certificate gives on its diagram.
fn check_over<'a>(
    alloc: Global,
    diagram: &Diagram,
    asked: check_command::Request<'a>,
) -> Result<AfterFile<SecondInput<'a>>, AllocError>
    ensures { IfOk result (GivesOn (left_of diagram.now) commands (request_of (Request.Check asked.entry)) diagram.now) }
{
    match accept_experiments(alloc, diagram, &asked.experiments)? {
        check_command::Acceptance::Refused(reply) => Ok(AfterFile::Replied(reply)),
        check_command::Acceptance::Accepted(experiments) => Ok(AfterFile::Continues(
            SecondInput::Check {
                experiments,
                certificate: asked.certificate,
                format: asked.format,
            },
        )),
    }
}

/// What a certificate whose derivation is to be explained gives on its diagram.
fn explain_over<'a>(
    alloc: Global,
    diagram: &Diagram,
    asked: check_command::Request<'a>,
) -> Result<AfterFile<SecondInput<'a>>, AllocError>
    ensures { IfOk result (GivesOn (left_of diagram.now) commands (request_of (Request.Steps asked.entry)) diagram.now) }
{
    match steps_command::accept_experiments(alloc, diagram, &asked.experiments)? {
        check_command::Acceptance::Refused(reply) => Ok(AfterFile::Replied(reply)),
        check_command::Acceptance::Accepted(experiments) => Ok(AfterFile::Continues(
            SecondInput::Steps {
                experiments,
                certificate: asked.certificate,
                format: asked.format,
            },
        )),
    }
}

/// What a comparison gives on its first diagram.
fn compare_with<'a>(
    alloc: Global,
    diagram: &Diagram,
    asked: equivalent_command::Request<'a>,
) -> Result<AfterFile<SecondInput<'a>>, AllocError>
    ensures { IfOk result (GivesOn (left_of diagram.now) commands (request_of (Request.Equivalent asked.entry)) diagram.now) }
{
    match accept_first(alloc, diagram, &asked)? {
        equivalent_command::Acceptance::Refused(reply) => Ok(AfterFile::Replied(reply)),
        equivalent_command::Acceptance::Accepted(sets) => Ok(AfterFile::Continues(
            SecondInput::Equivalent {
                sets,
                second: asked.second,
                format: asked.format,
            },
        )),
    }
}

/// What a list of implications gives on its diagram.
fn list_implications<'a>(
    alloc: Global,
    diagram: &Diagram,
    asked: implications_command::Request<'a>,
) -> Result<AfterFile<SecondInput<'a>>, AllocError>
    ensures { IfOk result (GivesOn (left_of diagram.now) commands (request_of (Request.Implications asked.entry)) diagram.now) }
{
    let Some(counts) = asked.counts else {
        return replied(pairs_reply(alloc, diagram, asked.format));
    };
    match counted_pairs(alloc, diagram, asked.format)? {
        implications_command::PairsOrReply::Replied(reply) => Ok(AfterFile::Replied(reply)),
        implications_command::PairsOrReply::Pairs(pairs) => Ok(AfterFile::Continues(
            SecondInput::Implications {
                pairs,
                counts,
                count: asked.count,
                format: asked.format,
            },
        )),
    }
}
