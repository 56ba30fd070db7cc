//! What packed files and databases begin with.
ghost use Rattle.std.specs.Prelude.{◌≡◌};
ghost use Rattle.tally_kinds.specs.Marks as Spec;

pub(crate) fn is_gzip(front: &[u8]) -> bool
    ensures { result ≡ Spec.begins_with Spec.gzip_mark front.now }
{
    front.starts_with(&[0x1f, 0x8b])
}

pub(crate) fn is_xz(front: &[u8]) -> bool
    ensures { result ≡ Spec.begins_with Spec.xz_mark front.now }
{
    front.starts_with(b"\xfd7zXZ\0")
}

pub(crate) fn is_zstd(front: &[u8]) -> bool
    ensures { result ≡ Spec.begins_with Spec.zstd_mark front.now }
{
    front.starts_with(&[0x28, 0xb5, 0x2f, 0xfd])
}

fn has_block_size(front: &[u8]) -> bool
    ensures { result ≡ Spec.has_block_size front.now }
{
    match front.get(3) {
        Some(digit) => (b'1'..=b'9').contains(digit),
        None => false,
    }
}

pub(crate) fn is_bzip2(front: &[u8]) -> bool
    ensures { result ≡ Spec.is_bzip2 front.now }
{
    front.starts_with(b"BZh") && has_block_size(front)
}

pub(crate) fn is_sqlite(front: &[u8]) -> bool
    ensures { result ≡ Spec.begins_with Spec.sqlite_mark front.now }
{
    front.starts_with(b"SQLite format 3\0")
}
