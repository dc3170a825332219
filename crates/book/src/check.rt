// Checks a book, and says where it goes wrong.
ghost use Rattle.std.specs.Prelude.{◌≡◌, ◌+◌, ◌*◌, ◌≤◌, length};
ghost use Rattle.book.specs.Book.{scenes_max, location_length, scene_count, scene_locations};
ghost use Rattle.book.specs.Check.{check_bodies, check_book};

use crate::locations::{LOCATION_LENGTH, SCENES_MAX, SceneLocation, scene_location};
use crate::step::{STEP_LENGTH, STEPS_MAX};

// What is wrong, and where: bytes and scenes are counted from 0.
#[derive(Clone, Copy, Debug, PartialEq, Eq)]
pub enum BookFault {
    Empty,
    // Too many scenes.
    Scenes {
        scenes: usize,
    },
    // The scene locations end at byte `end`, after the book.
    Locations {
        end: usize,
    },
    // A scene's body is said to start at byte `offset`; the bytes before it end at `start`.
    Start {
        scene: usize,
        offset: usize,
        start: usize,
    },
    // A scene has too many steps.
    Steps {
        scene: usize,
        steps: usize,
    },
    // The last body ends at byte `end`, which is not the end of the book.
    End {
        end: usize,
    },
}

// Checks that the scenes' bodies follow one another and end with the book.
#[tactic(auto, using(crate::proofs::Books::location_after, crate::proofs::Books::locations_end), unfolding(crate::specs::Check::check_bodies))]
fn check_bodies(book: &[u8], scenes: usize) -> Result<(), BookFault>
    requires { (1 + location_length * scenes ≤ length book.now) × (scenes ≤ scenes_max) × (scenes ≡ scene_count book.now) }
    ensures { result ≡ check_bodies 0 (1 + location_length * scenes) (scene_locations book.now) (length book.now) }
{
    let mut start = 1 + LOCATION_LENGTH * scenes;
    for scene in 0..scenes {
        let SceneLocation { offset, steps } = scene_location(book, scene);
        if offset != start {
            return Err(BookFault::Start {
                scene,
                offset,
                start,
            });
        }
        if STEPS_MAX < steps {
            return Err(BookFault::Steps { scene, steps });
        }
        start += STEP_LENGTH * steps;
    }
    if start != book.len() {
        return Err(BookFault::End { end: start });
    }
    Ok(())
}

// Checks a book up to the first fault.
#[tactic(auto, unfolding(crate::specs::Check::check_book))]
pub fn check_book(book: &[u8]) -> Result<(), BookFault>
    ensures { result ≡ check_book book.now }
{
    let [scenes, ..] = book else {
        return Err(BookFault::Empty);
    };
    let scenes = usize::from(*scenes);
    if SCENES_MAX < scenes {
        return Err(BookFault::Scenes { scenes });
    }
    let end = 1 + LOCATION_LENGTH * scenes;
    if book.len() < end {
        return Err(BookFault::Locations { end });
    }
    check_bodies(book, scenes)
}
