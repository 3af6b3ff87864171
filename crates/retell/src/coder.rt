// A sink that takes parts as their bytes.
use effect_codec::{append_part, part_len};
use kom_telling::PartSink;
use kom_types::{Memory, PartRef};
use std::alloc::Global;

/// How many bytes are kept of parts that are forgotten.
const BLOCK: usize = 1 << 16;

/// The bytes of parts: all of them, or those of the last block.
#[derive(Drop)]
pub(crate) struct Coder {
    bytes: Vec<u8>,
    parts: u64,
    keeps: bool,
}

impl Coder {
    pub(crate) fn keeping(alloc: Global) -> Coder {
        Coder {
            bytes: Vec::new(alloc),
            parts: 0,
            keeps: true,
        }
    }

    pub(crate) fn forgetting(alloc: Global) -> Coder {
        Coder {
            bytes: Vec::new(alloc),
            parts: 0,
            keeps: false,
        }
    }

    pub(crate) fn bytes(&self) -> &[u8] {
        &self.bytes
    }

    pub(crate) fn parts(&self) -> u64 {
        self.parts
    }
}

impl PartSink for Coder {
    ghost use Rattle.std.specs.Prelude.{List};
    ghost use Rattle.kom_types.specs.Parts.{Part};

    type Refusal = Memory;

    ghost took = { λ sink parts. Unit {0} };

    ghost becomes = { λ old new. Unit {0} };

    fn put(&mut self, part: &PartRef<'_>) -> Result<(), Memory> {
        if !self.keeps && self.bytes.len() >= BLOCK {
            self.bytes.clear();
        }
        self.bytes.reserve(part_len(part) as usize)?;
        append_part(&mut self.bytes, part);
        self.parts = self.parts.saturating_add(1);
        Ok(())
    }
}
