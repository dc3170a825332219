// The spans of a scene's entries, which the first pass finds and the second writes.
ghost use Rattle.std.specs.Prelude.{◌≡◌, ◌<◌, [], ◌∷◌, ◌++◌, length};
ghost use Rattle.book.specs.Book.{steps_max};

use book::step::STEPS_MAX;
use entries::join::EntrySpan;
use std::marker::Model;

// A list with room for the spans of a scene, which has no more entries than steps. It is an array and a count, since a library crate
// allocates nothing.
#[derive(Drop)]
pub struct Spans {
    places: [EntrySpan; STEPS_MAX],
    count: usize,
}

impl Model for Spans {
    ghost use Rattle.std.specs.Prelude.{List, ◌≤◌, take};
    ghost use Rattle.entries.specs.declared.join.EntrySpan.{EntrySpan};
    ghost use Rattle.book.specs.Book.{steps_max};

    ghost Value = { List EntrySpan };

    ghost view = { λ s. take s.count s.places };

    ghost invariant = { λ s. s.count ≤ steps_max };
}

impl Spans {
    pub fn new() -> Spans
        ensures { result ≡ [] }
    {
        Spans {
            places: [EntrySpan { steps: 0, size: 0 }; STEPS_MAX],
            count: 0,
        }
    }

    pub fn push(&mut self, span: EntrySpan)
        requires { length self.old < steps_max }
        ensures { self.new ≡ self.old ++ (span ∷ []) }
    {
        self.places[self.count] = span;
        self.count += 1;
    }

    pub fn as_slice(&self) -> &[EntrySpan]
        ensures { result.now ≡ self.now }
    {
        &self.places[..self.count]
    }
}
