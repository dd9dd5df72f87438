//! What a search keeps of the runs that it follows.
ghost use Rattle.std.specs.Prelude.{◌≡◌};
ghost use Rattle.object_moves.specs.Followed.{course};
ghost use Rattle.visited_set.specs.Courses.{course_of};

/// What a search keeps of the runs that it follows.
#[derive(Clone, Copy)]
pub enum Keeps {
    /// Configurations alone. It follows all transitions that need no choice.
    States,
    /// What was written, too. It follows those that need no choice and write nothing.
    Writes,
}

impl Keeps {
    /// Whether the transitions that the search follows write nothing.
    pub fn silent(self) -> bool
        ensures { course result ≡ course_of self }
    {
        match self {
            Keeps::States => false,
            Keeps::Writes => true,
        }
    }
}
