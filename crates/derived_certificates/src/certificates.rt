//! Certificates of counterfactual effects in parts.

ghost use Rattle.std.specs.Prelude.{◌<◌, IfOk};
ghost use Rattle.mixed_graph.specs.Vocabulary.{has, union, graph_of};
ghost use Rattle.do_rules.specs.Vocabulary.{AreFourSets};
ghost use Rattle.hedge.specs.declared.hedge.Hedge.{Hedge as HedgeData};
ghost use Rattle.hedge.specs.Vocabulary.{IsHedge};
ghost use Rattle.treated_id.specs.Vocabulary.{IsTreatedTarget};
ghost use Rattle.certificate.specs.Vocabulary.{part_certificate_view};
ghost use Rattle.derived_certificates.specs.Certificates.{IsNaturalCertificate, IsTreatedCertificate};

use crate::kept::have_short_steps;
use certificate::PartCertificate;
use mixed_graph::{Graph, VSet};
use part_checks::{derive_natural_parts, derive_treated_parts};
use prob_expr::Target;
use std::alloc::{AllocError, Global};

/// The certificate of P(y under do(x) | x and z as observed), where no treatment is joined to a child of its own.
///
/// The only error is want of memory.
pub fn treated_certificate(
    alloc: Global,
    g: &Graph,
    x: VSet,
    y: VSet,
    z: VSet,
) -> Result<PartCertificate, AllocError>
    requires target { IsTreatedTarget (graph_of g.now) x.bits y.bits z.bits }
    requires some { 0 < y.bits }
    ensures { IfOk result (λ c. IsTreatedCertificate (graph_of g.now) x.bits y.bits z.bits (part_certificate_view c)) }
{
    let parts = derive_treated_parts(alloc, g, x, y, z)?;
    have_short_steps(&parts);
    let target = Target { x, y, given: z };
    Ok(PartCertificate::Treated(target, parts))
}

/// The certificate of P(y[x, m[x']] | z), where no vertex and no district reads both values of a treatment.
///
/// The only error is want of memory.
pub fn natural_certificate(
    alloc: Global,
    g: &Graph,
    x: VSet,
    m: VSet,
    y: VSet,
    z: VSet,
) -> Result<PartCertificate, AllocError>
    requires sets { AreFourSets g.now.n (has x.bits) (has y.bits) (has m.bits) (has z.bits) }
    requires some { 0 < x.bits }
    requires outcome { 0 < y.bits }
    requires mediator { 0 < m.bits }
    requires no_hedge { (h : HedgeData) → IsHedge (graph_of g.now) x.bits (union y.bits z.bits) h → ⊥ }
    ensures { IfOk result (λ c. IsNaturalCertificate (graph_of g.now) x.bits m.bits y.bits z.bits (part_certificate_view c)) }
{
    match derive_natural_parts(alloc, g, x, y, z)? {
        Some(parts) => {
            have_short_steps(&parts);
            let sets = Target { x, y, given: z };
            Ok(PartCertificate::Natural(sets, m, parts))
        }
        None => unreachable!(),
    }
}
