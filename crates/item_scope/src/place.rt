// Places: what a name of a module stands for in one namespace, and what holds it there.
ghost use Rattle.std.specs.Prelude.{◌≡◌};
ghost use Rattle.item_scope.specs.Places.{holder, is_by_name};

/// What holds a place. It is held by name where anything but a glob brought its entry.
#[derive(Clone, Copy, PartialEq, Eq, Debug)]
pub enum Place<T> {
    Empty,
    ByGlob(T),
    ByName(T),
}

impl<T: Copy> Place<T> {
    /// The entry that holds the place.
    pub fn holder(self) -> Option<T>
        ensures { result ≡ holder self }
    {
        match self {
            Place::Empty => None,
            Place::ByGlob(entry) | Place::ByName(entry) => Some(entry),
        }
    }

    /// Whether an entry holds the place that anything but a glob brought.
    pub fn is_by_name(self) -> bool
        ensures { result ≡ is_by_name self }
    {
        matches!(self, Place::ByName(_))
    }
}
