#![tactic(auto)]

ghost use Rattle.examples.specs.Cases.{All, Says};
ghost use Rattle.examples.specs.Table.{table};

// The worked examples of measures, rides and plans hold of the definitions. The function does nothing: it is
// there for its contract.
#[tactic(auto, using(crate::proofs::Testing::table_says))]
pub fn worked_examples()
    ensures { All Says table }
{}
