ghost use Rattle.jn_reach.specs.GraphLaws.{ChainsAreLeast, ClassesAreLeast, SetsAreLeast, OriginsAreOne};

/// Chains of edges are the least reflexive and transitive relation that holds each edge.
pub fn chains_are_least()
    ensures { ChainsAreLeast }
{}

/// The classes of pairs are those of the least equivalence that holds each pair.
pub fn classes_are_least()
    ensures { ClassesAreLeast }
{}

/// What follows from seeds by rules is the least set that holds the seeds and is closed under the rules.
pub fn sets_are_least()
    ensures { SetsAreLeast }
{}

/// A node has one origin at most.
pub fn origins_are_one()
    ensures { OriginsAreOne }
{}
