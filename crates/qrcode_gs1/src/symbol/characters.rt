//! Spells separators and percent signs as segments after FNC1 write them.

ghost use Rattle.std.specs.Prelude.{◌≡◌, ◌++◌, length, IfOk, OnOk, IsOkUnless};
ghost use Rattle.qrcode_types.specs.declared.types.QrError.TheVariants.{OutOfMemory};
ghost use Rattle.qrcode_bits.specs.Segments.{Tile, AreInside};
ghost use Rattle.qrcode_gs1.specs.symbol.Characters.{characters_for, written_characters};
ghost use Rattle.qrcode_gs1.specs.symbol.Cuts.{AreCharacters};

use qrcode::types::{Mode, QrResult};
use qrcode_bits::optimize::Segment;
use std::alloc::Global;

// The characters that segments write, one after the other, and the segments of these.
pub(crate) struct Characters {
    pub(crate) bytes: Vec<u8>,
    pub(crate) segments: Vec<Segment>,
}

impl Characters {
    // Returns the characters that `segments` of `bytes` write.
    pub(crate) fn of(alloc: Global, bytes: &[u8], segments: &[Segment]) -> QrResult<Characters>
        requires tiles { Tile 0 segments.now (length bytes.now) }
        requires inside { AreInside (length bytes.now) segments.now }
        ensures value { IfOk result (λ written. AreCharacters bytes.now segments.now
            written.bytes.items written.segments.items) }
        ensures memory { IsOkUnless result OutOfMemory }
    {
        let mut written = Vec::new(alloc);
        let mut ranges = Vec::new(alloc);
        for segment in segments {
            let begin = written.len();
            let range = &bytes[segment.begin..segment.end];
            push_characters(&mut written, segment.mode, range)?;
            ranges.push(Segment {
                mode: segment.mode,
                begin,
                end: written.len(),
            })?;
        }
        Ok(Characters {
            bytes: written,
            segments: ranges,
        })
    }
}

// Appends the characters that a segment in `mode` writes for `bytes`.
fn push_characters(written: &mut Vec<u8>, mode: Mode, bytes: &[u8]) -> QrResult<()>
    ensures appends { OnOk result
        (written.new.items ≡ written.old.items ++ written_characters mode bytes.now) }
    ensures memory { IsOkUnless result OutOfMemory }
{
    for byte in bytes {
        push_character(written, mode, *byte)?;
    }
    Ok(())
}

// Appends what it writes for one byte: in Alphanumeric a percent sign for a separator, and two for
// a percent sign.
fn push_character(written: &mut Vec<u8>, mode: Mode, byte: u8) -> QrResult<()>
    ensures appends { OnOk result
        (written.new.items ≡ written.old.items ++ characters_for mode byte) }
    ensures memory { IsOkUnless result OutOfMemory }
{
    match (mode, byte) {
        (Mode::Alphanumeric, 29) => written.push(b'%')?,
        (Mode::Alphanumeric, b'%') => {
            written.push(b'%')?;
            written.push(b'%')?;
        }
        _ => written.push(byte)?,
    }
    Ok(())
}
