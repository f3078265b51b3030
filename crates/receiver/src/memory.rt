// The receiver itself, over lent value memory.
ghost use Rattle.std.specs.Prelude.{◌≤◌, length};
ghost use Rattle.receiver.specs.State.{capacity};

// The greatest number of values that a receiver holds, however long its memory.
pub const GREATEST_CAPACITY: usize = 32_768;

#[derive(Drop)]
pub struct Receiver<'a> {
    // the values heard stand in the places below the count, which stands beside them since the memory is lent
    pub(crate) values: &'a mut [i8],
    pub(crate) count: usize,
    // where a burst stands
    pub(crate) start: usize,
    ghost within: { count ≤ capacity (length values.now) },
}
