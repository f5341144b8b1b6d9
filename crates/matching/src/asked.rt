ghost use Rattle.std.specs.Prelude.{◌≡◌};
ghost use Rattle.matching.specs.Shapes.{none_of, every_if};

// Whether each place must say yes, or one.
#[derive(Clone, Copy)]
pub(crate) enum Quantifier {
    Every,
    Either,
}

impl Quantifier {
    // What it says of no places: the answer of a place that leaves it open.
    pub(crate) fn of_none(self) -> bool
        ensures { result ≡ none_of self }
    {
        match self {
            Quantifier::Every => true,
            Quantifier::Either => false,
        }
    }
}

// What a node asks of a value: an answer at once, or what so many places say.
#[derive(Clone, Copy)]
pub(crate) enum Shape {
    Given(bool),
    Asks(Quantifier, usize),
}

impl Shape {
    // So many places, each of which must say yes, if the value is of the type and the length that they need.
    pub(crate) fn every_if(fits: bool, places: usize) -> Shape
        ensures { result ≡ every_if fits places }
    {
        if fits {
            Shape::Asks(Quantifier::Every, places)
        } else {
            Shape::Given(false)
        }
    }
}
