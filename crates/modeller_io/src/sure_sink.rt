// A sink in memory that never fails.
ghost use Rattle.std.specs.Prelude.{◌≡◌, [], ◌+◌, ◌<◌, ◌≤◌, ◌++◌, length, take, min, Some, Ok, IfSome, IfNone, vec_len, option_copied};
ghost use Rattle.modeller_io.specs.Held.{Extends};
ghost use Rattle.modeller_io.specs.SinkView.{held_with};

use crate::{Failed, Sink};
use std::marker::Model;

/// A sink into memory of a fixed length. No call of it fails.
#[derive(Drop)]
pub struct SureSink {
    room: Vec<u8>,
    // How much of the room is filled, as long as the bytes taken fit.
    filled: Option<usize>,
    chunk: u64,
}

impl Model for SureSink {
    ghost use Rattle.std.specs.Prelude.{◌<◌, ◌≤◌, take, vec_len, option_map};
    ghost use Rattle.std.specs.Option.{ForSome};
    ghost use Rattle.modeller_io.specs.SinkView.{SureSinkView};

    ghost Value = { SureSinkView };

    ghost view = { λ s. record {
      held = option_map (λ filled. take filled s.room.items) s.filled;
      room = vec_len s.room;
      chunk = s.chunk;
    } };

    ghost invariant = { λ s. ForSome s.filled (λ filled. filled ≤ vec_len s.room) × (0 < s.chunk) };
}

impl SureSink {
    /// An empty sink. It takes at most `chunk` bytes a call, and holds as many as `room` is long.
    pub fn new(chunk: u64, room: Vec<u8>) -> SureSink
        requires { 1 ≤ chunk }
        ensures { result ≡ record { held = Some []; room = vec_len room; chunk = chunk } }
    {
        SureSink {
            room,
            filled: Some(0),
            chunk,
        }
    }

    /// The bytes taken so far, or `None` where they do not fit into the room.
    pub fn held(&self) -> Option<&[u8]>
        ensures { option_copied result ≡ self.now.held }
    {
        self.filled.map(|filled| &self.room[..filled])
    }
}

// Puts these bytes after the filled part of the room, and says how much is filled then.
// It is `None` where they do not fit.
fn fill(room: &mut [u8], filled: usize, bytes: &[u8]) -> Option<usize>
    requires { filled ≤ length room.old }
    ensures fits { IfSome result (λ end. end ≡ filled + length bytes.now) }
    ensures within { IfSome result (λ end. end ≤ length room.old) }
    ensures full { IfNone result (length room.old < filled + length bytes.now) }
    ensures after { IfSome result (λ end. take end room.new ≡ take filled room.old ++ bytes.now) }
{
    if bytes.len() > room.len() - filled {
        return None;
    }
    let end = filled + bytes.len();
    room[filled..end].copy_from_slice(bytes);
    Some(end)
}

impl Sink for SureSink {
    ghost held = { λ sink. sink.held };

    ghost faults = { λ _. 0 };

    /// As the trait says, and no call fails. A call takes as many bytes as the piece and the chunk
    /// allow. The sink tells what it holds as long as the bytes taken fit into its room.
    fn write(&mut self, piece: &[u8]) -> Result<usize, Failed>
        ensures count { result ≡ Ok (min (length piece.now) self.old.chunk) }
        ensures progress { 0 < self.old.chunk }
        ensures bytes { Extends self.old.held self.new.held
            (take (min (length piece.now) self.old.chunk) piece.now) }
        ensures held { self.new.held ≡ held_with self.old.room self.old.held
            (take (min (length piece.now) self.old.chunk) piece.now) }
        ensures room { self.new.room ≡ self.old.room }
        ensures chunk { self.new.chunk ≡ self.old.chunk }
    {
        let count = piece.len().min(self.chunk as usize);
        if let Some(filled) = self.filled {
            self.filled = fill(&mut self.room, filled, &piece[..count]);
        }
        Ok(count)
    }
}
