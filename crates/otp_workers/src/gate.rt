/// What is called around each link, as a test that holds a worker back.
pub trait Gate: Sync {
    /// Called before a link is served, with the worker's place.
    fn before(&self, worker: usize);

    /// Called after a link was served, with the worker's place.
    fn after(&self, worker: usize);
}
