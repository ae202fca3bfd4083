use std::alloc::Global;

/// Where a command serves: its port, the number to listen at, and where its lines go.
#[derive(Drop)]
pub struct Front<'a, P, W> {
    pub alloc: Global,
    pub port: &'a mut P,
    pub number: u16,
    pub sink: &'a mut W,
}
