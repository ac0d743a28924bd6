//! What is wrong with a second graph.

ghost use Rattle.std.specs.Prelude.{◌≡◌};
ghost use Rattle.equivalent_command.specs.declared.second.SecondFault.TheVariants.{NoMemory};

use crate::refusals::{refuse_long_graph, refuse_second_graph, refuse_second_target};
use dag_reader::GraphFault;
use replies::Reply;
use std::alloc::{AllocError, Global};
use targets::TargetFault;
use told::Refuses;

/// What is wrong with a second graph.
#[derive(Drop)]
pub enum SecondFault<'a> {
    /// Its text has more than 1,048,576 bytes.
    TooLong,
    /// Its text, whose bytes are these, has a fault.
    Faulty(&'a [u8], GraphFault),
    /// It can't be compared with the first: it has a bidirected edge, or one of them has a name alone.
    Unlike(TargetFault),
    /// Memory was refused.
    NoMemory,
}

impl<'a> From<AllocError> for SecondFault<'a> {
    ghost from_gives = { λ _ e. e ≡ NoMemory };

    fn from(_: AllocError) -> Self {
        SecondFault::NoMemory
    }
}

impl<'a> Refuses for SecondFault<'a> {
    ghost use Rattle.equivalent_command.specs.SecondFaults.{second_refusal};

    ghost refusal = { second_refusal };

    fn refuse(&self, alloc: Global) -> Result<Reply, AllocError> {
        match self {
            SecondFault::TooLong => refuse_long_graph(alloc),
            SecondFault::Faulty(bytes, fault) => refuse_second_graph(alloc, fault, bytes),
            SecondFault::Unlike(fault) => refuse_second_target(alloc, fault),
            SecondFault::NoMemory => Err(AllocError),
        }
    }
}
