//! What holds of any list of calls on a decoder, over every reader.
#![tactic(auto)]

pub mod run;

ghost use Rattle.runs.specs.Examples.{DecoderExamples};
ghost use Rattle.runs.specs.Unlawful.{LawExamples};

/// The worked examples of the calls hold of their definitions.
pub fn examples_hold()
    ensures { DecoderExamples }
{}

/// Lists of moments that the law rules out, each by one of its clauses.
pub fn law_examples_hold()
    ensures { LawExamples }
{}
