use crate::asks::Ask;
use std::alloc::Global;

/// What lanes are given once: threads, memory, and the gate of the run.
#[derive_where(Clone, Copy)]
pub struct Context<'a, R, G> {
    pub rt: &'a R,
    pub alloc: Global,
    pub gate: &'a G,
}

/// What the lanes of a batch share. The query at place `j`, counted from 0, is one of lane `j` modulo `lanes`.
#[derive(Drop)]
pub(crate) struct Dealt<'a, G> {
    pub alloc: Global,
    pub gate: &'a G,
    pub asks: &'a [Ask],
    pub lanes: usize,
}
