// Meter and revision memory, as others may write it.

// What every revision byte holds after a restart: it must be written before it means anything.
pub(crate) const UNWRITTEN: u8 = 77;

// The place `from` and each `step` places on, before `to` and as far as there is memory.
pub(crate) fn put_each<T: Copy>(memory: &mut [T], from: usize, to: usize, step: u16, value: T) {
    let step = usize::from(step).max(1);
    for place in memory.iter_mut().take(to).skip(from).step_by(step) {
        *place = value;
    }
}

// What a place holds, 0 past the end.
pub(crate) fn held<T: Copy + Default>(memory: &[T], at: usize) -> T {
    memory.get(at).copied().unwrap_or_default()
}
