//! The laws of blocks that are written.
ghost use Rattle.device_blocks.specs.Laws.{WrittenWordStands, SpelledHasSectors, RawHasSectors};

/// Law: the word that is known after a write that answered `Ok` is the one that stands there.
pub fn written_word_stands()
    ensures { WrittenWordStands }
{}

/// Law: the bytes by which a body is written have as many sectors as its block.
pub fn spelled_has_sectors()
    ensures { SpelledHasSectors }
{}

/// Law: the raw bytes of sectors have these sectors.
pub fn raw_has_sectors()
    ensures { RawHasSectors }
{}
