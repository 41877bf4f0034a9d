// The static library: every call for programs in C and Rust, with the contract of the call behind it.
#![tactic(auto)]

ghost use Rattle.std.specs.Prelude.{◌≡◌};
ghost use Rattle.reloc.specs.Version.{version};
ghost use Rattle.word.specs.Class.{order_of};
ghost use Rattle.relr_table.specs.Contract.{Reads as RelrReads, Writes as RelrWrites, Applies as RelrApplies};
ghost use Rattle.apr1_table.specs.Contract.{Reads as Apr1Reads, Writes as Apr1Writes};
ghost use Rattle.apa1_table.specs.Contract.{Reads as Apa1Reads, Writes as Apa1Writes};
ghost use Rattle.relleb_table.specs.Contract.{Reads as RellebReads, Writes as RellebWrites};

use answer::Answer;
use word::ByteOrder;

// The version as one number: 0.7.1.
const VERSION: u32 = 7001;

#[unsafe(no_mangle)]
pub extern "C" fn reloc_version() -> u32
    ensures { result ≡ version }
{
    VERSION
}

#[unsafe(no_mangle)]
pub extern "C" fn reloc_relr_read(
    class: u32,
    big: bool,
    table: &[u8],
    offsets: &mut [u64],
) -> Answer
    ensures { RelrReads class (order_of big) table.now offsets.old result offsets.new }
{
    relr::read(class, ByteOrder::from(big), table, offsets)
}

#[unsafe(no_mangle)]
pub extern "C" fn reloc_relr_write(
    class: u32,
    big: bool,
    offsets: &[u64],
    table: &mut [u8],
) -> Answer
    ensures { RelrWrites class (order_of big) offsets.now table.old result table.new }
{
    relr::write(class, ByteOrder::from(big), offsets, table)
}

#[unsafe(no_mangle)]
pub extern "C" fn reloc_relr_apply(
    class: u32,
    big: bool,
    table: &[u8],
    base: u64,
    start: u64,
    image: &mut [u8],
) -> Answer
    ensures { RelrApplies class (order_of big) table.now base start image.old result image.new }
{
    relr::apply(class, ByteOrder::from(big), table, base, start, image)
}

#[unsafe(no_mangle)]
pub extern "C" fn reloc_apr1_read(strict: bool, table: &[u8], offsets: &mut [u64]) -> Answer
    ensures { Apr1Reads strict table.now offsets.old result offsets.new }
{
    apr1::read(strict, table, offsets)
}

#[unsafe(no_mangle)]
pub extern "C" fn reloc_apr1_write(offsets: &[u64], table: &mut [u8]) -> Answer
    ensures { Apr1Writes offsets.now table.old result table.new }
{
    apr1::write(offsets, table)
}

#[unsafe(no_mangle)]
pub extern "C" fn reloc_apa1_read(
    strict: bool,
    table: &[u8],
    offsets: &mut [u64],
    addends: &mut [i64],
) -> Answer
    ensures { Apa1Reads strict table.now offsets.old addends.old result offsets.new addends.new }
{
    apa1::read(strict, table, offsets, addends)
}

#[unsafe(no_mangle)]
pub extern "C" fn reloc_apa1_write(offsets: &[u64], addends: &[i64], table: &mut [u8]) -> Answer
    ensures { Apa1Writes offsets.now addends.now table.old result table.new }
{
    apa1::write(offsets, addends, table)
}

#[unsafe(no_mangle)]
pub extern "C" fn reloc_relleb_read(
    class: u32,
    strict: bool,
    table: &[u8],
    offsets: &mut [u64],
    types: &mut [u32],
    symbols: &mut [u32],
    addends: &mut [i64],
) -> Answer
    ensures { RellebReads class strict table.now offsets.old types.old symbols.old addends.old result offsets.new types.new symbols.new addends.new }
{
    relleb::read(class, strict, table, offsets, types, symbols, addends)
}

#[unsafe(no_mangle)]
pub extern "C" fn reloc_relleb_write(
    class: u32,
    offsets: &[u64],
    types: &[u32],
    symbols: &[u32],
    addends: &[i64],
    table: &mut [u8],
) -> Answer
    ensures { RellebWrites class offsets.now types.now symbols.now addends.now table.old result table.new }
{
    relleb::write(class, offsets, types, symbols, addends, table)
}
