// The bytes of a name as they are kept.
ghost use Rattle.std.specs.Prelude.{◌≡◌, IfOk};

use arrayvec::ArrayVec;
use std::alloc::{AllocError, Global};
use std::marker::Model;
use std::rc::RcSlice;

// The most bytes of a name that take no memory of their own.
const INLINE: usize = 16;

// The bytes of a name, which contracts see. Its copies share the memory of many bytes.
#[derive(Debug, Drop)]
pub(crate) struct Label {
    bytes: LabelBytes,
}

#[derive(Debug, Drop)]
enum LabelBytes {
    Short(ArrayVec<u8, INLINE>),
    Long(RcSlice<u8>),
}

impl Model for Label {
    ghost use Rattle.std.specs.Prelude.{List, ℕ};
    ghost use Rattle.solid_model.specs.Labels.{label_bytes};

    ghost Value = { List ℕ };

    ghost view = { λ l. label_bytes l.bytes };
}

impl Label {
    // These bytes, which are copied.
    #[inline]
    pub(crate) fn copied(alloc: Global, bytes: &[u8]) -> Result<Label, AllocError>
        ensures { IfOk result (λ label. label ≡ bytes.now) }
    {
        let bytes = match ArrayVec::try_from(bytes) {
            Ok(short) => LabelBytes::Short(short),
            Err(_) => LabelBytes::Long(RcSlice::from_slice(alloc, bytes)?),
        };
        Ok(Label { bytes })
    }

    // The same bytes once more.
    #[inline]
    pub(crate) fn share(&self) -> Result<Label, AllocError>
        ensures { IfOk result (λ label. label ≡ self.now) }
    {
        let bytes = match &self.bytes {
            LabelBytes::Short(bytes) => LabelBytes::Short(bytes.clone()?),
            LabelBytes::Long(bytes) => LabelBytes::Long(bytes.clone()?),
        };
        Ok(Label { bytes })
    }

    // The bytes.
    #[inline]
    pub(crate) fn bytes(&self) -> &[u8]
        ensures { result.now ≡ self.now }
    {
        match &self.bytes {
            LabelBytes::Short(bytes) => bytes.as_slice(),
            LabelBytes::Long(bytes) => bytes.as_slice(),
        }
    }
}
