//! Cuts data into segments.

ghost use Rattle.std.specs.Iterator.{IsFinite};

use crate::digest::Digest;
use crate::words::Call;
use qrcode::bits::DATA_LIMIT;
use qrcode::optimize::{Modes, Parser, Segment, least_segments, least_segments_in};
use qrcode::types::{QrError, QrResult};
use std::alloc::Global;

/// Returns the digest of the segments of the data in the version that is asked for.
pub fn run(alloc: Global, asked: &Call<'_>) -> QrResult<Digest> {
    let (data, version) = (asked.data(), asked.version());
    if !version.is_valid() {
        return Err(QrError::InvalidVersion);
    }
    if data.len() > DATA_LIMIT {
        return Err(QrError::DataTooLong);
    }
    match asked.kind {
        "least" => Ok(of_segments(least_segments(alloc, data, version)?.into_iter())),
        "least-text" => {
            Ok(of_segments(least_segments_in(alloc, data, version, Modes::TEXT)?.into_iter()))
        }
        "runs" => Ok(of_segments(Parser::new(data))),
        _ => Ok(of_segments(Parser::new(data).optimize(version))),
    }
}

// Returns the digest of segments; each counts a number for its mode, its begin and its end.
fn of_segments<I: Iterator<Item = Segment> + Drop>(segments: I) -> Digest
    requires can { I.can_next segments }
    requires finite { IsFinite (I.remaining segments) }
{
    let mut digest = Digest::of::<u8>(&[]);
    for segment in segments {
        let mode = segment.mode.data_bits_count(100) % 256;
        digest = digest.and(Digest::of(&[
            mode as u32,
            (segment.begin % 4_294_967_296) as u32,
            (segment.end % 4_294_967_296) as u32,
        ]));
    }
    digest
}
