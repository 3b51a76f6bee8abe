//! Lines with numbers, each ended by LF. A call that fails may have appended a part of its lines.

ghost use Rattle.std.specs.Prelude.{◌≡◌, ◌+◌, ◌<◌, ◌≤◌, ◌++◌, OnErr, OnOk, decimal, length};
ghost use Rattle.std.specs.Prelude.{vec_capacity, vec_len};
ghost use Rattle.std.specs.List.{flat_map};
ghost use Rattle.osm_reading.specs.NumberLines.{applied_line, count_line, numbered_line};

use itoa::Buffer;
use osm_model::memory::WantOfMemory;

/// Appends the line `NAME N`. The blank is the last byte of `name`.
pub fn write_numbered(name: &[u8], number: u64, text: &mut Vec<u8>) -> Result<(), WantOfMemory>
    ensures appended { OnOk result
        (text.new.items ≡ text.old.items ++ numbered_line name.now number) }
    ensures room { vec_capacity text.old ≤ vec_capacity text.new }
    ensures refused { OnErr result
        (vec_capacity text.old < vec_len text.old + length (numbered_line name.now number)) }
{
    write_bytes(name, text)?;
    write_number(number, text)?;
    write_bytes(b"\n", text)
}

/// Appends a line `NAME N` for each number.
pub fn write_numbered_lines(
    name: &[u8],
    numbers: &[u32],
    text: &mut Vec<u8>,
) -> Result<(), WantOfMemory>
    ensures appended { OnOk result
        (text.new.items ≡ text.old.items ++ flat_map (numbered_line name.now) numbers.now) }
    ensures room { vec_capacity text.old ≤ vec_capacity text.new }
    ensures refused { OnErr result (vec_capacity text.old
        < vec_len text.old + length (flat_map (numbered_line name.now) numbers.now)) }
{
    for number in numbers {
        write_numbered(name, *number as u64, text)?;
    }
    Ok(())
}

/// Appends the line `applied LOW..HIGH`.
pub fn write_applied(low: u32, high: u32, text: &mut Vec<u8>) -> Result<(), WantOfMemory>
    ensures appended { OnOk result (text.new.items ≡ text.old.items ++ applied_line (low, high)) }
    ensures room { vec_capacity text.old ≤ vec_capacity text.new }
    ensures refused { OnErr result
        (vec_capacity text.old < vec_len text.old + length (applied_line (low, high))) }
{
    write_bytes(b"applied ", text)?;
    write_number(low as u64, text)?;
    write_bytes(b"..", text)?;
    write_number(high as u64, text)?;
    write_bytes(b"\n", text)
}

/// Appends a line `ID COUNT` for each count.
pub fn write_count_lines(counts: &[(u32, u64)], text: &mut Vec<u8>) -> Result<(), WantOfMemory>
    ensures appended { OnOk result
        (text.new.items ≡ text.old.items ++ flat_map count_line counts.now) }
    ensures room { vec_capacity text.old ≤ vec_capacity text.new }
    ensures refused { OnErr result
        (vec_capacity text.old < vec_len text.old + length (flat_map count_line counts.now)) }
{
    for (number, count) in counts {
        write_count(*number, *count, text)?;
    }
    Ok(())
}

/// Appends the line `ID COUNT`.
pub fn write_count(number: u32, count: u64, text: &mut Vec<u8>) -> Result<(), WantOfMemory>
    ensures appended { OnOk result (text.new.items ≡ text.old.items ++ count_line (number, count)) }
    ensures room { vec_capacity text.old ≤ vec_capacity text.new }
    ensures refused { OnErr result
        (vec_capacity text.old < vec_len text.old + length (count_line (number, count))) }
{
    write_number(number as u64, text)?;
    write_bytes(b" ", text)?;
    write_number(count, text)?;
    write_bytes(b"\n", text)
}

/// Appends the number's decimal digits.
pub fn write_number(number: u64, text: &mut Vec<u8>) -> Result<(), WantOfMemory>
    ensures appended { OnOk result (text.new.items ≡ text.old.items ++ decimal number) }
    ensures room { vec_capacity text.old ≤ vec_capacity text.new }
    ensures refused { OnErr result
        (vec_capacity text.old < vec_len text.old + length (decimal number)) }
{
    let mut buffer = Buffer::new();
    write_bytes(buffer.format(number).as_bytes(), text)
}

/// Appends the bytes as they are.
pub fn write_bytes(bytes: &[u8], text: &mut Vec<u8>) -> Result<(), WantOfMemory>
    ensures appended { OnOk result (text.new.items ≡ text.old.items ++ bytes.now) }
    ensures room { vec_capacity text.old ≤ vec_capacity text.new }
    ensures refused { OnErr result (vec_capacity text.old < vec_len text.old + length (bytes.now)) }
{
    text.extend_from_slice(bytes)?;
    Ok(())
}
