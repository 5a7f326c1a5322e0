//! What the sources and sinks count and copy.

ghost use Rattle.std.specs.Prelude.{◌≡◌, ◌+◌, ◌-◌, ◌≤◌, length, take, drop, ◌++◌, min, vec_len, vec_capacity};
ghost use Rattle.run_io.specs.Faults.{count_on, is_listed};

/// One more, at most the greatest u64.
pub fn counted(count: u64) -> u64
    ensures { result ≡ count_on count }
{
    count.saturating_add(1)
}

/// Whether the number stands in the list.
pub fn is_among(numbers: &[u32], number: u64) -> bool
    ensures { result ≡ is_listed numbers.now number }
{
    numbers.iter().any(|n| u64::from(*n) == number)
}

/// Copies the first bytes to the front of the buffer, at most so many, and answers how many.
pub fn copy_front(bytes: &[u8], into: &mut [u8], most: u32) -> usize
    ensures count { result ≡ min (min (length into.old) most) (length bytes.now) }
    ensures copied { into.new ≡ take result bytes.now ++ drop result into.old }
{
    let count = into.len().min(most as usize).min(bytes.len());
    into[..count].copy_from_slice(&bytes[..count]);
    count
}

/// Appends the piece, for which there is room: it takes no memory.
pub fn append(bytes: &mut Vec<u8>, piece: &[u8])
    requires { vec_len bytes.old + length piece.now ≤ vec_capacity bytes.old }
    ensures items { bytes.new.items ≡ bytes.old.items ++ piece.now }
    ensures len { vec_len bytes.new ≡ vec_len bytes.old + length piece.now }
    ensures capacity { vec_capacity bytes.old ≤ vec_capacity bytes.new }
{
    let added = bytes.extend_from_slice(piece);
    prove!(added.is_ok());
}

/// Removes the first bytes, so many.
pub fn remove_front(bytes: &mut Vec<u8>, count: usize)
    requires { count ≤ vec_len bytes.old }
    ensures items { bytes.new.items ≡ drop count bytes.old.items }
    ensures len { vec_len bytes.new ≡ vec_len bytes.old - count }
    ensures capacity { vec_capacity bytes.new ≡ vec_capacity bytes.old }
{
    let len = bytes.len();
    bytes.as_mut_slice().copy_within(count..len, 0);
    bytes.truncate(len - count);
}
