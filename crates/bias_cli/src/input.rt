//! Reading a text from a source.

ghost use Rattle.std.specs.Prelude.{◌≡◌, ℕ, ◌+◌, ◌-◌, ◌<◌, ◌≤◌, length, vec_len, IfOk, IfErr, OnErr, OnOk, IsTrue, Err};
ghost use Rattle.run_io.specs.Faults.{rose};
ghost use Rattle.run_io.specs.Source.{IsAtEnd};
ghost use Rattle.bias_cli.specs.Input.{Took, TookSome};
ghost use Rattle.bias_cli.specs.inner.Input.{TookMore};

use run_io::Source;
use std::alloc::Global;

/// The most bytes that a program with its journal may have.
pub(crate) const MOST_OF_JOURNAL: usize = 67_108_864;

/// How many bytes are asked for at a time.
const PIECE: usize = 4096;

/// Why a text could not be read.
#[derive(Clone, Copy, Debug, PartialEq, Eq)]
pub(crate) enum ReadError {
    /// A read failed.
    Fault,
    /// Memory is wanting.
    NoMemory,
}

/// Reads the source to its end, or until one byte more was taken than the text may have, so that a longer one is known. `Fault`
/// comes only where the source's count of faults rose.
pub(crate) fn read_text<S: Source>(
    alloc: Global,
    source: &mut S,
    most: usize,
) -> Result<Vec<u8>, ReadError>
    requires { most ≤ 67108864 }
    ensures counted { S.faults source.old ≤ S.faults source.new }
    ensures fault { (result ≡ Err ReadError.Fault) → IsTrue (rose (S.faults source.old) (S.faults source.new)) }
    ensures took { IfOk result (λ v. Took most (S.left source.old) (S.left source.new) v.items) }
    ensures some { TookSome (most + 1) (S.left source.old) (S.left source.new) }
{
    let mut bytes = Vec::new(alloc);
    while bytes.len() <= most {
        if read_piece(source, &mut bytes, most)? == 0 {
            break;
        }
    }
    Ok(bytes)
}

/// Reads once, and puts what was read after the bytes. 0 says that nothing was left.
fn read_piece<S: Source>(
    source: &mut S,
    bytes: &mut Vec<u8>,
    most: usize,
) -> Result<usize, ReadError>
    requires limit { most ≤ 67108864 }
    requires room { vec_len bytes.old ≤ most }
    ensures counted { S.faults source.old ≤ S.faults source.new }
    ensures fault { (result ≡ Err ReadError.Fault) → IsTrue (rose (S.faults source.old) (S.faults source.new)) }
    ensures more { IfOk result (λ n. vec_len bytes.new ≡ vec_len bytes.old + n) }
    ensures most { OnOk result (vec_len bytes.new ≤ most + 1) }
    ensures took { IfOk result (λ n. TookMore n (S.left source.old)
        (S.left source.new) bytes.old.items bytes.new.items) }
    ensures some { TookSome (most + 1 - vec_len bytes.old) (S.left source.old) (S.left source.new) }
    ensures ended { IfOk result (λ n. n ≡ 0 → IsAtEnd (S.left source.old)) }
{
    let mut buffer = [0u8; PIECE];
    let room = (most + 1 - bytes.len()).min(PIECE);
    let Ok(n) = source.read(&mut buffer[..room]) else {
        return Err(ReadError::Fault);
    };
    match bytes.extend_from_slice(&buffer[..n]) {
        Ok(()) => Ok(n),
        Err(_) => Err(ReadError::NoMemory),
    }
}
