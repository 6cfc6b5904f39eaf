//! The laws of a boot sector's grammar.
ghost use Rattle.boot_sector.specs.BootLaws.{BootTableIsRead, BootReadIsTable, SpellsOneBoot, BootReadAgain};

/// Law: bytes that spell a boot sector's fields are read as them.
pub fn boot_table_is_read()
    ensures { BootTableIsRead }
{}

/// Law: bytes that are read as a boot sector's fields spell them.
pub fn boot_read_is_table()
    ensures { BootReadIsTable }
{}

/// Law: bytes spell the fields of at most one boot sector.
pub fn spells_one_boot()
    ensures { SpellsOneBoot }
{}

/// Law: the written spelling of a boot sector has 512 bytes, spells its fields, and is read again.
pub fn boot_read_again()
    ensures { BootReadAgain }
{}
