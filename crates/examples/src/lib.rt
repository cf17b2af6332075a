//! Small histories, worked out by hand and proved of the definitions that the contracts of the layers below use: what is
//! refused, which mini sector is taken, and what is left when one is given back.

#![tactic(auto)]

ghost use Rattle.examples.specs.Examples.{Examples};

// Does nothing; it stands for the examples.
pub fn examples_stand()
    ensures { Examples }
{}
