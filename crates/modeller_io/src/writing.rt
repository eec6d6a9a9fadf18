// Writing all of some bytes to a sink.
ghost use Rattle.std.specs.Prelude.{◌≡◌, ◌≤◌, length, IsOk, OnOk, OnErr};
ghost use Rattle.modeller_io.specs.Count.{RoseBy, Stands};
ghost use Rattle.modeller_io.specs.Held.{Gains, GainsProperPrefix};

use crate::{Failed, Sink};

/// Writes all the bytes, in as many calls as the sink needs, and in none where there are no bytes.
/// `Failed` comes where a call failed, and no call comes after that one. The sink has then taken a
/// proper prefix of the bytes.
#[tactic(auto, using(crate::proofs::Gains::step_laws))]
pub fn write_all<K: Sink>(sink: &mut K, bytes: &[u8]) -> Result<(), Failed>
    ensures ok { OnOk result (Gains K.held sink.old sink.new bytes.now) }
    ensures err { OnErr result (GainsProperPrefix K.held sink.old sink.new bytes.now) }
    ensures no_fault { OnOk result (Stands K.faults sink.old sink.new) }
    ensures cause { OnErr result (RoseBy K.faults sink.old sink.new 1) }
    ensures never_falls { K.faults sink.old ≤ K.faults sink.new }
    ensures no_bytes { length bytes.now ≡ 0 → IsOk result × (sink.new ≡ sink.old) }
{
    let mut written = 0;
    while written < bytes.len() {
        let Ok(count) = sink.write(&bytes[written..]) else {
            return Err(Failed);
        };
        written += count;
    }
    Ok(())
}
