// A state that is kept.

/// After how many steps of the run a state is that of its machine, and which form of the pool brings it back.
#[derive(Clone, Copy)]
pub struct Kept {
    pub place: u64,
    pub form: usize,
}
