// Reading a source to its end.
ghost use Rattle.std.specs.Prelude.{◌≡◌, ◌≢◌, [], ◌+◌, ◌^◌, ◌<◌, ◌≤◌, length, Some, Err, IfOk, OnOk, OnErr, IsErr, IfSome, OnSome, vec_len};
ghost use Rattle.modeller_io.specs.Count.{RoseBy, RoseAtMost, Stands};
ghost use Rattle.modeller_io.specs.Took.{LosesAtMost};

use crate::{ReadEnd, Source};
use std::alloc::Global;

// How many bytes one call of the source is asked for at most.
const BUFFER: usize = 8 * 1024;

/// Reads a source to its end. `Ok` gives all its bytes, at most `limit` of them.
/// `Failed` comes where a call of the source failed, and no call comes after that one. `TooLong`
/// comes where there are more bytes than `limit`, once one more than `limit` is read, and `NoMemory`
/// where memory for the bytes is refused.
pub fn read_all<S: Source>(alloc: Global, source: &mut S, limit: u64) -> Result<Vec<u8>, ReadEnd>
    requires { limit < 2 ^ 32 }
    // Ok: the whole source, which is within the limit.
    ensures within { IfOk result (λ bytes. vec_len bytes ≤ limit) }
    ensures took { IfOk result (λ bytes. RoseBy S.taken source.old source.new (vec_len bytes)) }
    ensures all { IfOk result (λ bytes. IfSome (S.rest source.old) (λ rest. bytes.items ≡ rest)) }
    ensures emptied { OnOk result (OnSome (S.rest source.old) (S.rest source.new ≡ Some [])) }

    // When each error comes. A source that is too long is not read without one.
    ensures failed { result ≡ Err ReadEnd.Failed → RoseBy S.faults source.old source.new 1 }
    ensures no_fault { result ≢ Err ReadEnd.Failed → Stands S.faults source.old source.new }
    ensures too_long { result ≡ Err ReadEnd.TooLong
        → IfSome (S.rest source.old) (λ rest. limit < length rest) }
    ensures longer { IfSome (S.rest source.old) (λ rest. limit < length rest → IsErr result) }

    // What each error took.
    ensures failed_took { result ≡ Err ReadEnd.Failed
        → RoseAtMost S.taken source.old source.new limit }
    ensures too_long_took { result ≡ Err ReadEnd.TooLong
        → RoseBy S.taken source.old source.new (limit + 1) }
    ensures no_memory_took { result ≡ Err ReadEnd.NoMemory
        → RoseAtMost S.taken source.old source.new limit }
    ensures lost { OnErr result
        (LosesAtMost S.rest S.taken source.old source.new (limit + 1)) }
    ensures never_falls { S.faults source.old ≤ S.faults source.new }
{
    let longest = limit as usize;
    let mut bytes = Vec::new(alloc);
    let mut buffer = [0; BUFFER];
    loop {
        let room = longest - bytes.len();
        // One byte past the limit is asked for, which tells a longer source from one that ends.
        let most = (room + 1).min(BUFFER);
        let Ok(count) = source.read(&mut buffer[..most]) else {
            return Err(ReadEnd::Failed);
        };
        if count == 0 {
            return Ok(bytes);
        }
        if count > room {
            return Err(ReadEnd::TooLong);
        }
        if bytes.extend_from_slice(&buffer[..count]).is_err() {
            return Err(ReadEnd::NoMemory);
        }
    }
}
