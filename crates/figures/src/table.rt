// The table of figures, as a contract.
ghost use Rattle.figures.specs.Figures.{Figures};

// Its proof is what shows the figures.
fn shown()
    ensures { Figures }
{}

#[test]
fn figures_follow_from_the_definitions() {
    shown();
}
