//! The text of an image.
ghost use Rattle.std.specs.Prelude.{◌≡◌, ◌++◌, flat_map, map, OnOk, IsTrue};
ghost use Rattle.std.specs.List.{list_all};
ghost use Rattle.image_text.specs.Written.{line_text, head_lines, item_lines, only_if, split_fields, announce_fields, image_text, is_addressed, title_fields, vmpl_fields, value_fields};

use crate::text::{put_newline, put_number, put_text};
use crate::write::{put_blocks, put_cores, put_fills, put_larges, put_ranges};
use svsm_types::{Image, NoMemory, Vmpl};

fn put_title(out: &mut Vec<u8>, second: Option<Vmpl>) -> Result<(), NoMemory>
    ensures { OnOk result (out.new.items ≡ out.old.items ++ line_text (title_fields second)) }
{
    match second {
        None => put_text(out, "svsm-image 1\n"),
        Some(_) => put_text(out, "svsm-image 2\n"),
    }
}

fn put_value(out: &mut Vec<u8>, word: &str, value: u64) -> Result<(), NoMemory>
    ensures { OnOk result (out.new.items ≡ out.old.items ++ line_text (value_fields word.now value)) }
{
    put_text(out, word)?;
    put_number(out, value)?;
    put_newline(out)
}

fn put_levels(out: &mut Vec<u8>, first: Vmpl, second: Option<Vmpl>) -> Result<(), NoMemory>
    ensures { OnOk result (out.new.items ≡ out.old.items ++ line_text (vmpl_fields first second)) }
{
    put_text(out, "vmpl")?;
    put_number(out, u64::from(first.0))?;
    if let Some(second) = second {
        put_number(out, u64::from(second.0))?;
    }
    put_newline(out)
}

fn put_head(out: &mut Vec<u8>, image: &Image) -> Result<(), NoMemory>
    ensures { OnOk result (out.new.items ≡ out.old.items ++ flat_map line_text (head_lines image.now)) }
{
    put_title(out, image.second)?;
    put_value(out, "regions", image.regions)?;
    put_levels(out, image.vmpl, image.second)?;
    put_value(out, "features", image.features)?;
    put_value(out, "ghcb", image.ghcb.0)
}

fn put_split(out: &mut Vec<u8>, split: bool) -> Result<(), NoMemory>
    ensures { OnOk result (out.new.items ≡ out.old.items ++ flat_map line_text (only_if split split_fields)) }
{
    if split {
        put_text(out, "pool split\n")?;
    }
    Ok(())
}

fn put_announce(out: &mut Vec<u8>, announce: bool) -> Result<(), NoMemory>
    ensures { OnOk result (out.new.items ≡ out.old.items ++ flat_map line_text (only_if announce announce_fields)) }
{
    if announce {
        put_text(out, "announce\n")?;
    }
    Ok(())
}

fn put_items(out: &mut Vec<u8>, image: &Image) -> Result<(), NoMemory>
    requires { IsTrue (list_all is_addressed image.now.cores) }
    ensures { OnOk result (out.new.items ≡ out.old.items ++ flat_map line_text (item_lines image.now)) }
{
    put_ranges(out, image.ranges.as_slice())?;
    put_larges(out, image.large.as_slice())?;
    put_cores(out, image.second, image.cores.as_slice())?;
    put_blocks(out, image.blocks.as_slice())?;
    put_split(out, image.split)?;
    put_announce(out, image.announce)?;
    put_fills(out, image.fills.as_slice())
}

/// Appends the text of an image, without its lines of accepts, faults and the host.
pub fn put_image(out: &mut Vec<u8>, image: &Image) -> Result<(), NoMemory>
    requires { IsTrue (list_all is_addressed image.now.cores) }
    ensures { OnOk result (out.new.items ≡ out.old.items ++ image_text image.now) }
{
    put_head(out, image)?;
    put_items(out, image)
}
