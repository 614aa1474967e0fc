//! All bytes of a source.
ghost use Rattle.std.specs.Prelude.{◌≡◌, ◌+◌, ◌^◌, ◌<◌, ◌≤◌, ⊤, [], IfOk, IfSome, OnOk, OnErr, IsErrOf, length, vec_len};
ghost use Rattle.smol_edge.specs.Faults.{Rose, Tells};
ghost use Rattle.smol_edge.specs.TakeFault.{UnlessReadFault};
ghost use Rattle.smol_edge.specs.Source.{Takes, TakesAll, TakesFront, Gathers};

use crate::{Source, TakeFault};
use std::alloc::{AllocError, Global};

/// How many bytes are asked for at a time.
const CHUNK: usize = 65_536;

// That many zeros.
fn zeros(alloc: Global, count: usize) -> Result<Vec<u8>, AllocError>
    ensures { IfOk result (λ bytes. vec_len bytes ≡ count) }
{
    vec![in alloc; 0; count]
}

// Takes some of what is left, as many bytes at most as `buffer` has, to the end of `bytes`, and answers
// how many. There is room for one byte more than the limit, so that too long a file is seen.
fn take_some<S: Source>(
    source: &mut S,
    buffer: &mut [u8],
    bytes: &mut Vec<u8>,
    limit: usize,
) -> Result<usize, TakeFault>
    requires small { limit < 2 ^ 40 }
    requires asks { 0 < length buffer.old }
    requires room { vec_len bytes.old + length buffer.old ≤ limit + 1 }
    ensures gathered { OnOk result (Tells (S.told source.old) (S.told source.new) (Gathers bytes.old.items bytes.new.items)) }
    ensures count { IfOk result (λ n. vec_len bytes.new ≡ vec_len bytes.old + n) }
    ensures within { OnOk result (vec_len bytes.new ≤ limit) }
    ensures ended { IfOk result (λ n. n ≡ 0 → IfSome (S.told source.old) (λ reading. reading.left ≡ [])) }

    ensures front_taken { OnErr result (Tells (S.told source.old) (S.told source.new) (TakesFront (λ _. ⊤))) }
    ensures too_long { IsErrOf result TakeFault.TooLong →
        Tells (S.told source.old) (S.told source.new) (TakesFront (λ n. vec_len bytes.old + n ≡ limit + 1)) }
    ensures read_failed { IsErrOf result TakeFault.ReadFault → Tells (S.told source.old) (S.told source.new) (Takes []) }
    ensures out_of_memory { IsErrOf result TakeFault.OutOfMemory → Tells (S.told source.old) (S.told source.new) (Takes []) }

    ensures faults_stay { S.faults source.old ≤ S.faults source.new }
    ensures cause { IsErrOf result TakeFault.ReadFault → Rose (S.faults source.old) (S.faults source.new) }
    ensures no_fault { UnlessReadFault result (S.faults source.new ≡ S.faults source.old) }
{
    bytes.reserve(buffer.len())?;
    let taken = source.read(buffer)?;
    if taken > limit - bytes.len() {
        return Err(TakeFault::TooLong);
    }
    bytes.extend_from_slice(&buffer[..taken]).unwrap();
    Ok(taken)
}

/// Takes all that is left of the file that is open, if that is at most `limit` bytes. Otherwise a front
/// of it has been taken: at `TooLong` one byte more than the limit, and else at most the limit.
pub fn take_all<S: Source>(
    alloc: Global,
    source: &mut S,
    limit: usize,
) -> Result<Vec<u8>, TakeFault>
    requires { limit < 2 ^ 40 }
    ensures all_taken { IfOk result (λ bytes. Tells (S.told source.old) (S.told source.new) (TakesAll bytes.items)) }
    ensures within { IfOk result (λ bytes. length bytes.items ≤ limit) }

    ensures front_taken { OnErr result (Tells (S.told source.old) (S.told source.new) (TakesFront (λ _. ⊤))) }
    ensures too_long { IsErrOf result TakeFault.TooLong →
        Tells (S.told source.old) (S.told source.new) (TakesFront (λ n. n ≡ limit + 1)) }
    ensures read_failed { IsErrOf result TakeFault.ReadFault →
        Tells (S.told source.old) (S.told source.new) (TakesFront (λ n. n ≤ limit)) }
    ensures out_of_memory { IsErrOf result TakeFault.OutOfMemory →
        Tells (S.told source.old) (S.told source.new) (TakesFront (λ n. n ≤ limit)) }

    ensures faults_stay { S.faults source.old ≤ S.faults source.new }
    ensures cause { IsErrOf result TakeFault.ReadFault → Rose (S.faults source.old) (S.faults source.new) }
    ensures no_fault { UnlessReadFault result (S.faults source.new ≡ S.faults source.old) }
{
    let mut bytes = Vec::new(alloc);
    let mut chunk = zeros(alloc, CHUNK)?;
    let buffer = chunk.as_mut_slice();
    loop {
        let room = CHUNK.min(limit - bytes.len() + 1);
        if take_some(source, &mut buffer[..room], &mut bytes, limit)? == 0 {
            return Ok(bytes);
        }
    }
}
