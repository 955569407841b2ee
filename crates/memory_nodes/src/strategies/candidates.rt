ghost use Rattle.std.specs.Prelude.{◌≡◌, ◌-◌, length, Some, slice_get};
ghost use Rattle.cluster_map.specs.ReadCandidates.{addresses_of, candidates_of};

use cluster_map::{NodeAddress, ReadCandidates, Replicas};

/// The replicas among the candidates.
pub(crate) fn replicas_of<'a>(candidates: &ReadCandidates<'a>) -> Replicas<'a>
    ensures { addresses_of result ≡ (candidates_of candidates.now).replicas }
{
    match candidates {
        ReadCandidates::AnyNode(candidates) => candidates.replicas(),
        ReadCandidates::ReplicasOnly(candidates) => candidates.replicas(),
    }
}

/// The last replica.
pub(crate) fn last_of<'a>(replicas: Replicas<'a>) -> &'a NodeAddress
    ensures { let nodes = addresses_of replicas.entry in
        slice_get nodes (length nodes - 1) ≡ Some result.now }
{
    replicas.choose_random(replicas.len() - 1)
}
