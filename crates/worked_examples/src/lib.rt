//! The worked examples of the definitions, proved together.
#![tactic(auto)]

ghost use Rattle.worked_examples.specs.Worked.{WorkedExamples};

/// All worked examples hold of the definitions. The theorem stands in the contract; the call does nothing.
pub fn worked_examples()
    ensures { WorkedExamples }
{}
