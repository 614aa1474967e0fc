//! Files in memory, found by name.
ghost use Rattle.std.specs.Prelude.{◌≡◌, ◌∷◌, ◌++◌, [], map, drop, IfSome, IfNone, Some, None};
ghost use Rattle.smol_edge.specs.MemSource.{contents_of};
ghost use Rattle.smol_edge.specs.MemFile.{file_of, bytes_at, KeepsPlace};

use crate::mem_file::MemFile;

/// The place of the first file of that name.
pub(crate) fn find_file(files: &[MemFile], name: &str) -> Option<usize>
    ensures found { IfSome result (λ place. contents_of (map file_of files.now) name.now ≡ Some (bytes_at files.now place)) }
    ensures unknown { IfNone result (contents_of (map file_of files.now) name.now ≡ None) }
{
    for (place, file) in files.iter().enumerate() {
        if file.name.as_str() == name {
            return Some(place);
        }
    }
    None
}

/// The bytes of the file at `place`, from `position` on. Where there is no such file there are none.
pub(crate) fn bytes_left(files: &[MemFile], place: usize, position: usize) -> &[u8]
    ensures { result.now ≡ drop position (bytes_at files.now place) }
{
    match files.get(place) {
        Some(file) if position <= file.bytes.len() => &file.bytes[position..],
        _ => &[],
    }
}

/// The place that has the same bytes when one more file stands behind these. Past the last file there are none.
pub(crate) fn place_kept(files: &[MemFile], place: usize) -> usize
    ensures { KeepsPlace files.now place result }
{
    if place < files.len() {
        place
    } else {
        files.len() + 1
    }
}
