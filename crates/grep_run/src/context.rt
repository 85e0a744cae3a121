use std::alloc::Global;

/// What a search runs with: permission to start threads, and an allocator.
#[derive(Drop)]
pub struct Context<'a, R> {
    pub rt: &'a R,
    pub alloc: Global,
}
