//! A law of the machine's definition: what a step does, by operations, without the decoder.
ghost use Rattle.rule_laws.specs.Operations.{OperationsDo};

/// At each word of each operation a step does what the operation does at its place.
#[tactic(auto, using(crate::proofs::Operations::operations_do))]
pub fn operations_do()
    ensures { OperationsDo }
{}
