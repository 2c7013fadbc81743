//! The text of an image, line by line.
ghost use Rattle.std.specs.Prelude.{◌≡◌, ◌*◌, ◌<◌, ◌^◌, ◌∷◌, [], ◌++◌, map, flat_map, OnOk, None, Some};
ghost use Rattle.std.specs.Prelude.{IsTrue};
ghost use Rattle.std.specs.List.{list_all};
ghost use Rattle.image_text.specs.Written.{spaced, line_text, range_fields, large_fields, core_fields, block_fields, fill_fields, level_fields, seat_fields, has_address, is_addressed};

use crate::text::{
    owner_field, put_newline, put_number, put_text, put_word, put_words, state_field,
};
use svsm_types::{CoreLine, Fill, Gpa, NoMemory, Page, Range, Size, Vmpl};

fn put_range(out: &mut Vec<u8>, range: &Range) -> Result<(), NoMemory>
    ensures { OnOk result (out.new.items ≡ out.old.items ++ line_text (range_fields range.now)) }
{
    put_text(out, "range")?;
    put_number(out, range.first.0)?;
    put_number(out, range.count)?;
    put_word(out, owner_field(range.owner))?;
    put_word(out, state_field(range.state))?;
    put_number(out, u64::from(range.rights))?;
    put_newline(out)
}

/// Appends the range lines.
pub fn put_ranges(out: &mut Vec<u8>, ranges: &[Range]) -> Result<(), NoMemory>
    ensures { OnOk result (out.new.items ≡ out.old.items ++ flat_map line_text (map range_fields ranges.now)) }
{
    for range in ranges {
        put_range(out, range)?;
    }
    Ok(())
}

fn put_large(out: &mut Vec<u8>, region: u64) -> Result<(), NoMemory>
    ensures { OnOk result (out.new.items ≡ out.old.items ++ line_text (large_fields region)) }
{
    put_text(out, "large")?;
    put_number(out, region)?;
    put_newline(out)
}

/// Appends the lines of the regions that are held as 2M.
pub fn put_larges(out: &mut Vec<u8>, regions: &[u64]) -> Result<(), NoMemory>
    ensures { OnOk result (out.new.items ≡ out.old.items ++ flat_map line_text (map large_fields regions.now)) }
{
    for region in regions {
        put_large(out, *region)?;
    }
    Ok(())
}

fn put_block(out: &mut Vec<u8>, block: &(Page, Size)) -> Result<(), NoMemory>
    ensures { OnOk result (out.new.items ≡ out.old.items ++ line_text (block_fields block.now)) }
{
    put_text(out, "block")?;
    put_number(out, block.0.0)?;
    put_number(
        out,
        match block.1 {
            Size::Small => 0,
            Size::Large => 1,
        },
    )?;
    put_newline(out)
}

/// Appends the block lines.
pub fn put_blocks(out: &mut Vec<u8>, blocks: &[(Page, Size)]) -> Result<(), NoMemory>
    ensures { OnOk result (out.new.items ≡ out.old.items ++ flat_map line_text (map block_fields blocks.now)) }
{
    for block in blocks {
        put_block(out, block)?;
    }
    Ok(())
}

fn put_level(out: &mut Vec<u8>, second: Option<Vmpl>, level: Vmpl) -> Result<(), NoMemory>
    ensures { OnOk result (out.new.items ≡ out.old.items ++ flat_map spaced (level_fields second level)) }
{
    if second.is_some() {
        put_word(out, "vmpl")?;
        put_number(out, u64::from(level.0))?;
    }
    Ok(())
}

fn put_seat(out: &mut Vec<u8>, seat: Option<(Page, Gpa)>) -> Result<(), NoMemory>
    requires { IsTrue (has_address seat) }
    ensures { OnOk result (out.new.items ≡ out.old.items ++ flat_map spaced (seat_fields seat)) }
{
    match seat {
        Some((page, area)) => {
            put_word(out, "vmsa")?;
            put_number(out, 4096 * page.0)?;
            put_word(out, "caa")?;
            put_number(out, area.0)
        }
        None => put_word(out, "parked"),
    }
}

fn put_core(out: &mut Vec<u8>, second: Option<Vmpl>, core: &CoreLine) -> Result<(), NoMemory>
    requires { IsTrue (is_addressed core.now) }
    ensures { OnOk result (out.new.items ≡ out.old.items ++ line_text (core_fields second core.now)) }
{
    put_text(out, "core")?;
    put_number(out, u64::from(core.apic))?;
    put_seat(out, core.seat)?;
    put_level(out, second, core.vmpl)?;
    put_newline(out)
}

/// Appends the core lines.
pub fn put_cores(
    out: &mut Vec<u8>,
    second: Option<Vmpl>,
    cores: &[CoreLine],
) -> Result<(), NoMemory>
    requires { IsTrue (list_all is_addressed cores.now) }
    ensures { OnOk result (out.new.items ≡ out.old.items ++ flat_map line_text (map (core_fields second) cores.now)) }
{
    for core in cores {
        put_core(out, second, core)?;
    }
    Ok(())
}

fn put_fill(out: &mut Vec<u8>, fill: &Fill) -> Result<(), NoMemory>
    ensures { OnOk result (out.new.items ≡ out.old.items ++ line_text (fill_fields fill.now)) }
{
    put_text(out, "bytes")?;
    put_number(out, fill.gpa.0)?;
    put_text(out, " ")?;
    put_words(out, fill.words.as_slice())?;
    put_newline(out)
}

/// Appends the lines of contents.
pub fn put_fills(out: &mut Vec<u8>, fills: &[Fill]) -> Result<(), NoMemory>
    ensures { OnOk result (out.new.items ≡ out.old.items ++ flat_map line_text (map fill_fields fills.now)) }
{
    for fill in fills {
        put_fill(out, fill)?;
    }
    Ok(())
}
