// How a report is written.
ghost use Rattle.std.specs.Prelude.{◌≡◌};
ghost use Rattle.reports.specs.Styles.{most_named};

/// The form in which a report is written.
#[derive(Clone, Copy, PartialEq, Eq, Debug)]
pub enum Form {
    /// For people.
    Text,
    /// A line of words for each item, place, path and answer.
    Lines,
    /// A JSON object a line.
    Json,
}

/// How a report is written.
#[derive(Clone, Copy, Debug)]
pub struct Style {
    pub form: Form,
    /// Name each module that sees an item, however many there are.
    pub all: bool,
    /// Tell how far the report has come: at each model, and before each `PROGRESS_STEP` items or paths.
    pub progress: bool,
}

/// The largest number of modules that are named to people one by one.
pub const FEW: usize = 20;

/// How many items, or paths of a model, are passed between two lines that tell how far a report has come.
pub const PROGRESS_STEP: usize = 10_000;

impl Style {
    /// The largest number of modules that are named one by one.
    pub(crate) fn most(self) -> usize
        ensures { result ≡ most_named self }
    {
        if self.all {
            return usize::MAX;
        }
        match self.form {
            Form::Text => FEW,
            Form::Lines => usize::MAX,
            Form::Json => 0,
        }
    }
}
