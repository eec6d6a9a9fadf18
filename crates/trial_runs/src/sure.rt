// One run over a source and sinks that never fail.
use crate::trial::{held_beside, word_list};
use crate::{Ending, Trial};
use fixed_ops::Tally;
use modeller_cmd::run_surely;
use modeller_io::{SureSink, SureSource};
use std::alloc::{AllocError, Global};

impl<'a> Trial<'a> {
    /// Runs the modeller over a source that gives five bytes a call, and sinks that take one. It should write
    /// these bytes and note those.
    pub fn run_surely(&self, alloc: Global, out: &[u8], note: &[u8]) -> Result<Ending, AllocError> {
        let given = word_list(alloc, self.words)?;
        let mut source = SureSource::new(self.input.to_vec(alloc)?, 5);
        let mut written = SureSink::new(1, vec![in alloc; 0; out.len()]?);
        let mut noted = SureSink::new(1, vec![in alloc; 0; note.len()]?);
        let status = run_surely(
            alloc,
            &given,
            &mut source,
            &mut written,
            &mut noted,
            &mut Tally::new(),
        );
        Ok(Ending {
            status,
            out: held_beside(written.held(), out),
            notes: held_beside(noted.held(), note),
        })
    }
}
