// A sink that puts the bytes of parts into a file, block by block.
ghost use Rattle.std.specs.Prelude.{◌≡◌, ◌++◌, [], ◌∷◌, List, None, IfErr, OnOk};
ghost use Rattle.kom_types.specs.Parts.{Part, part_of};
ghost use Rattle.effect_codec.specs.Parts.{IsPartShort, IsPartInRange, coded_part};
ghost use Rattle.store_snapshots.specs.Coders.{HasParts, FileComes};

use crate::errors::Unwritten;
use batch_log::FlushFault;
use effect_codec::{append_part, part_len};
use kom_disk::Disk;
use kom_telling::PartSink;
use kom_types::PartRef;
use std::alloc::Global;
use store_files::SnapshotFile;

// How many bytes wait at least before they are written.
const BLOCK: usize = 1 << 16;

/// A file, the bytes that wait for the next block, and why a part was refused, if one was.
#[derive(Drop)]
pub(crate) struct Coder<D: Disk> {
    pub file: SnapshotFile<D>,
    pub block: Vec<u8>,
    pub refused: Option<Unwritten>,
}

impl<D: Disk> Coder<D> {
    pub(crate) fn new(alloc: Global, file: SnapshotFile<D>) -> Coder<D>
        ensures file { result.file ≡ file }
        ensures block { result.block.items ≡ [] }
        ensures refused { result.refused ≡ None }
    {
        Coder {
            file,
            block: Vec::new(alloc),
            refused: None,
        }
    }

    /// The file. What waits is dropped.
    pub(crate) fn into_file(self) -> SnapshotFile<D>
        ensures { result ≡ self.file }
    {
        let Coder {
            file,
            block: _,
            refused: _,
        } = self;
        file
    }
}

impl<D: Disk> PartSink for Coder<D> {
    ghost use Rattle.std.specs.Prelude.{◌≡◌, None};
    ghost use Rattle.store_snapshots.specs.Coders.{HasParts, FileBecomes};

    type Refusal = Unwritten;

    ghost took = { λ coder parts.
        HasParts D.tells D.bytes D.size parts coder.file coder.block.items
        × (coder.refused ≡ None) };

    ghost becomes = { λ first new. FileBecomes D.tells D.moment D.images_at D.faults first.file
        new.file first.refused new.refused };

    fn put(&mut self, part: &PartRef<'_>) -> Result<(), Unwritten> {
        match self.refused {
            None => match put_part(&mut self.file, &mut self.block, part) {
                Ok(()) => Ok(()),
                Err(why) => {
                    self.refused = Some(why);
                    Err(why)
                }
            },
            Some(why) => Err(why),
        }
    }
}

// Adds the bytes of a part to a block, which is written first where it is long.
fn put_part<D: Disk>(
    file: &mut SnapshotFile<D>,
    block: &mut Vec<u8>,
    part: &PartRef<'_>,
) -> Result<(), Unwritten>
    requires { IsPartShort (part_of part.now) }
    ensures put { (parts : List Part)
        → HasParts D.tells D.bytes D.size parts file.old block.old.items → OnOk result
        (HasParts D.tells D.bytes D.size (parts ++ part_of part.now ∷ []) file.new
        block.new.items) }
    ensures comes { FileComes D.tells D.moment D.images_at D.faults file.old file.new result }
{
    make_room(file, block)?;
    append_to(block, part)
}

// Writes a block that is long.
fn make_room<D: Disk>(file: &mut SnapshotFile<D>, block: &mut Vec<u8>) -> Result<(), Unwritten>
    ensures put { (parts : List Part)
        → HasParts D.tells D.bytes D.size parts file.old block.old.items → OnOk result
        (HasParts D.tells D.bytes D.size parts file.new block.new.items) }
    ensures comes { FileComes D.tells D.moment D.images_at D.faults file.old file.new result }
{
    if block.len() < BLOCK {
        return Ok(());
    }
    put_block(file, block)
}

/// Writes what waits.
pub(crate) fn put_block<D: Disk>(
    file: &mut SnapshotFile<D>,
    block: &mut Vec<u8>,
) -> Result<(), Unwritten>
    ensures put { (parts : List Part)
        → HasParts D.tells D.bytes D.size parts file.old block.old.items → OnOk result
        (HasParts D.tells D.bytes D.size parts file.new block.new.items) }
    ensures empty { OnOk result (block.new.items ≡ []) }
    ensures comes { FileComes D.tells D.moment D.images_at D.faults file.old file.new result }
{
    match file.push_block(block) {
        Ok(()) => {
            block.clear();
            Ok(())
        }
        Err(FlushFault::Fault) => Err(Unwritten::Fault),
        Err(FlushFault::Full(len)) => Err(Unwritten::Full(len)),
    }
}

// Adds the bytes of a part to a block.
fn append_to(block: &mut Vec<u8>, part: &PartRef<'_>) -> Result<(), Unwritten>
    requires { IsPartShort (part_of part.now) }
    ensures items { OnOk result
        (block.new.items ≡ block.old.items ++ coded_part (part_of part.now)) }
    ensures range { OnOk result (IsPartInRange (part_of part.now)) }
    ensures memory { IfErr result (λ why. why ≡ Unwritten.Memory) }
{
    match block.reserve(part_len(part) as usize) {
        Ok(()) => {
            append_part(block, part);
            Ok(())
        }
        Err(_) => Err(Unwritten::Memory),
    }
}
