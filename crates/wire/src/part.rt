// The first n of a buffer, or all of it where it has fewer.
pub fn first<T>(buffer: &[T], n: u64) -> &[T] {
    let end = buffer.len().min(n as usize);
    &buffer[..end]
}

pub fn first_mut<T>(buffer: &mut [T], n: u64) -> &mut [T] {
    let end = buffer.len().min(n as usize);
    &mut buffer[..end]
}
