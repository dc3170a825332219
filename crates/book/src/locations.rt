// Where the scenes of a book are.
ghost use Rattle.std.specs.Prelude.{◌≡◌, true, ◌+◌, ◌*◌, ◌≤◌, ◌<◌, length};
ghost use Rattle.book.specs.Book.{scenes_max, location_length, scene_count, book_ok, scene_of};
ghost use Rattle.book.specs.Positions.{location_at};
ghost use Rattle.book.specs.Steps.{steps_of};

use crate::step::{STEP_LENGTH, STEPS_MAX, Steps};
use dpa::number::word_of;

// The most scenes of a book.
pub const SCENES_MAX: usize = 16;

// The bytes of a scene location.
pub const LOCATION_LENGTH: usize = 3;

// The longest book: the number of scenes, and for each scene its location and its steps.
pub const LONGEST_BOOK: usize = 1 + SCENES_MAX * (LOCATION_LENGTH + STEPS_MAX * STEP_LENGTH);

// The start of a scene's body in the book, and its number of steps.
#[derive(Clone, Copy, Debug, PartialEq, Eq)]
pub struct SceneLocation {
    pub offset: usize,
    pub steps: usize,
}

// The location of a scene, read from the bytes that C lends (`grelfint_compile`). The book's first byte is the number of scenes.
pub fn scene_location(book: &[u8], scene: usize) -> SceneLocation
    requires { (1 + location_length * scene + location_length ≤ length book.now) × (scene ≤ scenes_max) }
    ensures { (result ≡ location_at book.now scene) × (result.steps < 256) × (result.offset < 65536) }
{
    let at = 1 + LOCATION_LENGTH * scene;
    SceneLocation {
        offset: usize::from(word_of(book[at], book[at + 1])),
        steps: usize::from(book[at + 2]),
    }
}

// The steps of a scene of a well-formed book.
pub fn scene_steps(book: &[u8], scene: usize) -> Steps<'_>
    requires { (book_ok book.now ≡ true) × (scene < scene_count book.now) }
    ensures { steps_of result ≡ scene_of book.now scene }
{
    let SceneLocation { offset, steps } = scene_location(book, scene);
    Steps {
        body: &book[offset..],
        count: steps,
    }
}
