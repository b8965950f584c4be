// The book itself: small, with no hours in it. What an opened book holds is what the rules allow.
ghost use Rattle.std.specs.Prelude.{◌≡◌, true};
ghost use Rattle.book.specs.Points.{lawful};

use super::account::Opening;

#[derive(Clone, Copy)]
pub struct Book {
    pub(crate) opening: Option<Opening>,
    ghost lawful: { lawful opening ≡ true },
}

impl Book {
    // What the book holds besides its hours; none if it was never opened.
    pub fn opening(&self) -> Option<Opening>
        ensures opening { result ≡ self.now.opening }
    {
        self.opening
    }
}
