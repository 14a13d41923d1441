//! Diagrams that are made of others: opposites and joints.

ghost use Rattle.std.specs.Prelude.{◌≡◌, IfOk, length};
ghost use Rattle.mode_nodes.specs.Diagrams.{IsDiagramNumber};
ghost use Rattle.mode_nodes.specs.Bounds.{GrowsWithin};
ghost use Rattle.diagram_steps.specs.Joints.{AreTabled, IsDiagramJoint, IsSigned};

use mode_nodes::{DiagramFault, DiagramId, Diagrams};

/// The opposite, where the sign asks for it, at the modes that cost no more than is enough. Full comes where the store has
/// its limit of nodes; older numbers keep their values, also where the answer is a fault.
pub fn signed(store: &mut Diagrams, plain: DiagramId, sign: bool) -> Result<DiagramId, DiagramFault>
    requires { IsDiagramNumber store.old.store plain.n }
    ensures grows { GrowsWithin store.old store.new }
    ensures signed { IfOk result (λ n. IsSigned store.old plain.n sign store.new.store n.n) }
    ensures full { result ≡ Err DiagramFault.Full → length store.new.store.nodes ≡ store.new.store.limit }
{
    if sign {
        return Ok(plain);
    }
    store.not(plain)
}

/// The diagram that is true where all of these are, or, where not all are needed, where one is, at the modes that cost no
/// more than is enough. They are joined from the last to the first, so that neighbours meet where the trees of the first are
/// not yet asked for. Full comes where the store has its limit of nodes; older numbers keep their values, also where the
/// answer is a fault.
pub fn joined(
    store: &mut Diagrams,
    all_needed: bool,
    parts: &[DiagramId],
) -> Result<DiagramId, DiagramFault>
    requires { AreTabled parts.now store.old.store }
    ensures grows { GrowsWithin store.old store.new }
    ensures joint { IfOk result (λ n. IsDiagramJoint all_needed store.old parts.now store.new.store n.n) }
    ensures full { result ≡ Err DiagramFault.Full → length store.new.store.nodes ≡ store.new.store.limit }
{
    let mut so_far = DiagramId::new(u32::from(all_needed));
    let mut left = parts.len();
    while left > 0 {
        left -= 1;
        so_far = if all_needed {
            store.and(parts[left], so_far)?
        } else {
            store.or(parts[left], so_far)?
        };
    }
    Ok(so_far)
}
