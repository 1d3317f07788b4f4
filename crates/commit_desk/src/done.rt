use commit_history::Note;

/// What a commit did: the number of commits after it, and a note that names the whole published history.
#[derive(Drop)]
pub enum Done {
    /// It published what was pending.
    Committed { number: u64, note: Note },
    /// Nothing was pending.
    Nothing { number: u64, note: Note },
}
