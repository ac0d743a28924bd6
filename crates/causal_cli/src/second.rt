// What is left to answer once the file was accepted, where a second input is read.

ghost use Rattle.std.specs.Prelude.{◌≤◌, ◌<◌, ℕ, List, ◌≡◌, IfOk, length};
ghost use Rattle.causal_cli.specs.Commands.{left_of};

use bound_values::Question;
use bounds_command::bounds_reply;
use diagram::Diagram;
use equivalent_command::{equivalent_reply, long_second_graph};
use evaluate_command::{Identified, evaluate_reply, long_counts};
use evaluate_natural::nested_reply;
use evaluate_treated::among_reply;
use implications::Implication;
use implications_command::differences_reply;
use mixed_graph::VSet;
use part_check_command::{check_reply, long_certificate};
use replies::{Format, Reply};
use std::alloc::{AllocError, Global};
use steps_command::steps_reply;
use targets::Sets;
use told::Form;

/// What is left to answer once the file was accepted, where a second input is read. It keeps no diagram: that is lent to it.
#[derive(Drop)]
pub enum SecondInput<'a> {
    /// Whether a certificate is accepted, with experiments on these sets.
    Check {
        experiments: Vec<VSet>,
        certificate: &'a str,
        format: Format,
    },
    /// The values of an effect over counts, whose column may have a name, in exact fractions or in bounds, and by which rule for products;
    /// and whether a pair is told by which no model has the counts.
    Evaluate {
        found: Identified,
        counts: &'a str,
        count: Option<&'a [u8]>,
        exact: bool,
        zero: bool,
        matched: bool,
        format: Format,
    },
    /// The values of an effect among the treated over counts, whose column may have a name, in exact fractions or in bounds.
    EvaluateTreated {
        found: evaluate_treated::Identified,
        counts: &'a str,
        count: Option<&'a [u8]>,
        exact: bool,
        form: Form,
    },
    /// The values of a nested effect over counts, whose column may have a name, in exact fractions or in bounds.
    EvaluateNatural {
        found: evaluate_natural::Identified,
        counts: &'a str,
        count: Option<&'a [u8]>,
        exact: bool,
        form: Form,
    },
    /// Whether a second graph is equivalent, and what both say of sets that are asked about.
    Equivalent {
        sets: Option<Sets>,
        second: &'a str,
        format: Format,
    },
    /// How far counts, whose column may have a name, are from each of these pairs.
    Implications {
        pairs: Vec<Implication>,
        counts: &'a str,
        count: Option<&'a [u8]>,
        format: Format,
    },
    /// What an effect is at least and at most over counts, whose column may have a name, in exact fractions or in units of 10^-18.
    Bounds {
        question: Question,
        counts: &'a str,
        count: Option<&'a [u8]>,
        exact: bool,
        format: Format,
    },
    /// The derivation of a certificate that is accepted, move by move, with experiments on these sets.
    Steps {
        experiments: Vec<VSet>,
        certificate: &'a str,
        format: Format,
    },
}

impl<'a> command_run::SecondInput for SecondInput<'a> {
    ghost left = { left_of };

    fn second(&self) -> &str {
        match self {
            SecondInput::Check { certificate, .. } => certificate,
            SecondInput::Evaluate { counts, .. } => counts,
            SecondInput::EvaluateTreated { counts, .. } => counts,
            SecondInput::EvaluateNatural { counts, .. } => counts,
            SecondInput::Equivalent { second, .. } => second,
            SecondInput::Implications { counts, .. } => counts,
            SecondInput::Bounds { counts, .. } => counts,
            SecondInput::Steps { certificate, .. } => certificate,
        }
    }

    fn limit(&self) -> u64 {
        match self {
            SecondInput::Check { .. } => 67_108_864,
            SecondInput::Evaluate { .. } => 67_108_864,
            SecondInput::EvaluateTreated { .. } => 67_108_864,
            SecondInput::EvaluateNatural { .. } => 67_108_864,
            SecondInput::Equivalent { .. } => 1_048_576,
            SecondInput::Implications { .. } => 67_108_864,
            SecondInput::Bounds { .. } => 67_108_864,
            SecondInput::Steps { .. } => 67_108_864,
        }
    }

    fn reply(&self, alloc: Global, diagram: &Diagram, other: &[u8]) -> Result<Reply, AllocError> {
        match self {
            SecondInput::Check {
                experiments,
                format,
                ..
            } => check_reply(alloc, diagram, experiments, other, *format),
            SecondInput::Evaluate {
                found,
                count,
                exact,
                zero,
                matched,
                format,
                ..
            } => evaluate_reply(
                alloc, diagram, found, *count, *exact, *zero, *matched, other, *format,
            ),
            SecondInput::EvaluateTreated {
                found,
                count,
                exact,
                form,
                ..
            } => among_reply(alloc, diagram, found, *count, *exact, other, *form),
            SecondInput::EvaluateNatural {
                found,
                count,
                exact,
                form,
                ..
            } => nested_reply(alloc, diagram, found, *count, *exact, other, *form),
            SecondInput::Equivalent { sets, format, .. } => equivalent_reply(
                alloc, diagram, *sets, other, *format,
            ),
            SecondInput::Implications {
                pairs,
                count,
                format,
                ..
            } => differences_reply(alloc, diagram, pairs, *count, other, *format),
            SecondInput::Bounds {
                question,
                count,
                exact,
                format,
                ..
            } => bounds_reply(alloc, diagram, *question, *count, *exact, other, *format),
            SecondInput::Steps {
                experiments,
                format,
                ..
            } => steps_reply(alloc, diagram, experiments, other, *format),
        }
    }

    fn long_reply(&self, alloc: Global, diagram: &Diagram) -> Result<Reply, AllocError> {
        match self {
            SecondInput::Check { .. } => long_certificate(alloc),
            SecondInput::Evaluate { .. } => long_counts(alloc),
            SecondInput::EvaluateTreated { .. } => evaluate_treated::long_counts(alloc),
            SecondInput::EvaluateNatural { .. } => evaluate_natural::long_counts(alloc),
            SecondInput::Equivalent { .. } => long_second_graph(alloc),
            SecondInput::Implications { .. } => implications_command::long_counts(alloc),
            SecondInput::Bounds { .. } => bounds_command::long_counts(alloc),
            SecondInput::Steps { .. } => steps_command::long_certificate(alloc),
        }
    }
}
