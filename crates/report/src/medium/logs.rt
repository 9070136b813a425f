//! What is printed of the volume on a medium.

ghost use Rattle.line_memory.specs.Lines.{line_at};
ghost use Rattle.report.specs.Names.{name_text};
ghost use Rattle.report.specs.Volumes.{IsVolumeText, change_text, entries_text, entry_line, head_line, inode_text, inodes_text, layout_number};
ghost use Rattle.nova_log.specs.Volumes.{volume_of};
ghost use Rattle.std.specs.Prelude.{◌≡◌, ◌⊎◌, ◌++◌, Err, IfErr, IfOk, OnOk, length, string_bytes};

use crate::medium::names::tell_name;
use line_memory::{LINE_SIZE, Medium, load_bytes};
use nova_log::{Entry, EntryKind, Volume, VolumeFault, recover};
use std::alloc::{AllocError, Global};
use std::fmt::Write;

/// The volume that recovery finds on a medium: its layout and its counts, and then the log of each inode, an entry on a line.
/// Memory is answered where a growth was refused, and else the fault that recovery finds.
///
/// ```text
/// layout 1 inodes 1 pages 1 journals 1
/// inode 0: 1 entries
/// op=1 append value=77
/// ```
///
/// An entry of a name is `op=2 add NAME value=9` or `op=2 remove NAME value=9`.
pub fn volume_text(alloc: Global, medium: &Medium) -> Result<String, VolumeFault>
    ensures ok { IfOk result (λ text. IsVolumeText medium.now (string_bytes text)) }
    ensures err { IfErr result (λ fault. (fault ≡ VolumeFault.Memory) ⊎ (volume_of medium.now ≡ Err fault)) }
{
    let volume = recover(alloc, medium)?;
    prove!(medium.lines() > 0);
    let mut text = String::new(alloc);
    tell_head(&mut text, medium.read_line(0))?;
    tell_inodes(&mut text, &volume)?;
    Ok(text)
}

/// The layout and the counts that a volume's first line says.
#[tactic(auto, unfolding(nova_log::specs::Superblocks::geometry_in))]
fn tell_head(text: &mut String, first: &[u8; LINE_SIZE]) -> Result<(), AllocError>
    requires { length first.now ≡ 64 }
    ensures { OnOk result (string_bytes text.new ≡ string_bytes text.old ++ head_line first.now) }
{
    let layout = layout_number(first);
    let inodes = load_bytes(first, 8, 8);
    let pages = load_bytes(first, 16, 8);
    let journals = load_bytes(first, 24, 8);
    writeln!(
        text,
        "layout {layout} inodes {inodes} pages {pages} journals {journals}"
    )
}

/// The number of the layout that a volume's first line names.
fn layout_number(first: &[u8; LINE_SIZE]) -> u32
    requires { length first.now ≡ 64 }
    ensures { result ≡ layout_number first.now }
{
    let is_first = first.starts_with(b"NOVALOG1");
    if !is_first && first.starts_with(b"NOVALOG2") {
        2
    } else {
        1
    }
}

#[tactic(auto, using(crate::proofs::MediumLines::inodes_more, crate::proofs::MediumLines::inodes_all))]
fn tell_inodes(text: &mut String, volume: &Volume) -> Result<(), AllocError>
    ensures { OnOk result (string_bytes text.new ≡ string_bytes text.old ++ inodes_text volume.now) }
{
    for inode in 0..volume.inodes() {
        tell_inode(text, inode, volume.log(inode))?;
    }
    Ok(())
}

fn tell_inode(text: &mut String, inode: u32, log: &[Entry]) -> Result<(), AllocError>
    ensures { OnOk result (string_bytes text.new ≡ string_bytes text.old ++ inode_text inode log.now) }
{
    writeln!(text, "inode {inode}: {} entries", log.len())?;
    tell_entries(text, log)
}

#[tactic(auto, using(crate::proofs::MediumLines::lines_more, crate::proofs::MediumLines::lines_all))]
fn tell_entries(text: &mut String, log: &[Entry]) -> Result<(), AllocError>
    ensures { OnOk result (string_bytes text.new ≡ string_bytes text.old ++ entries_text log.now) }
{
    for entry in log {
        tell_entry(text, entry)?;
    }
    Ok(())
}

fn tell_entry(text: &mut String, entry: &Entry) -> Result<(), AllocError>
    ensures { OnOk result (string_bytes text.new ≡ string_bytes text.old ++ entry_line entry.now) }
{
    write!(text, "op={} ", entry.operation)?;
    tell_change(text, entry)?;
    writeln!(text, " value={}", entry.value)
}

/// What an entry says of its inode, without the value.
fn tell_change(text: &mut String, entry: &Entry) -> Result<(), AllocError>
    ensures { OnOk result (string_bytes text.new ≡ string_bytes text.old ++ change_text entry.now.kind entry.now.name) }
{
    match entry.kind {
        EntryKind::Write => write!(text, "append"),
        EntryKind::AddName => tell_named(text, "add ", entry),
        EntryKind::RemoveName => tell_named(text, "remove ", entry),
    }
}

fn tell_named(text: &mut String, verb: &str, entry: &Entry) -> Result<(), AllocError>
    ensures { OnOk result (string_bytes text.new ≡ string_bytes text.old ++ (verb.now ++ name_text entry.now.name)) }
{
    text.push_str(verb)?;
    tell_name(text, entry.name.as_bytes())
}
