// What is answered to a command.
use entries::per_ns::PerNs;
use hir_def::fault::Fault;
use path_resolution::answer::ResolvePathResult;
use path_text::mod_path::ModPath;

/// What is answered to a command.
#[derive(Debug, Drop)]
pub enum Answer {
    /// The delivery was taken: whether any namespace changed.
    Delivered(bool),
    /// What the path stands for.
    Asked(ResolvePathResult),
    /// The entries that hold the name's places.
    Place(PerNs),
    /// Whether the module may see.
    Sight(bool),
    /// The path that was read.
    Read(ModPath),
    /// How many rows are free.
    Left(usize),
    /// Why the command is refused.
    Refused(Fault),
}
