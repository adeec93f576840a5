//! Splits data into runs of one mode. No constructor calls this: they use `least_segments`.

ghost use Rattle.std.specs.Prelude.{◌≡◌, ◌+◌, ◌<◌, ◌^◌, List, length, slice_range, IsTrue};
ghost use Rattle.std.specs.List.{AllByRecursion};
ghost use Rattle.std.specs.Iterator.{HoldsAlong};
ghost use Rattle.qrcode_types.specs.Characters.{can_write};
ghost use Rattle.qrcode_bits.specs.declared.optimize.Segment.{Segment};
ghost use Rattle.qrcode_bits.specs.Runs.{runs, IsRuns};
ghost use Rattle.qrcode_bits.specs.Segments.{Tile, AreInside};

use super::Segment;
use super::groups::Optimizer;
use super::tokens::split_token;
use qrcode_types::types::Version;

/// An iterator over the runs of the data, each in the narrowest mode: as many Kanji pairs, digits,
/// other alphanumeric characters or other bytes as follow one another. A byte that could begin a
/// pair but does not is a run of its own.
#[derive(Drop)]
pub struct Parser<'a> {
    rest: &'a [u8],
    begin: usize,
    ghost fits: { begin + length rest.now < 2 ^ 64 },
}

impl<'a> Parser<'a> {
    ghost use Rattle.std.specs.Prelude.{◌≤◌, ⊤};
    ghost use Rattle.std.specs.Iterator.{YieldsFirst, item_count, IsFinite, Drains};
    ghost use Rattle.qrcode_types.specs.Versions.{is_valid};
    ghost use Rattle.qrcode_bits.specs.Groups.{range_limit, AreGroups};
    ghost use Rattle.qrcode_bits.specs.GroupSteps.{groups_left, CanGroup, GroupsStep};
    ghost use Rattle.qrcode_bits.specs.RunsLeft.{runs_left, data_end, data_left};

    /// Creates a parser of `bytes`.
    pub fn new(bytes: &'a [u8]) -> Parser<'a>
        ensures runs { runs_left result ≡ runs bytes.now }
        ensures end { data_end result ≡ length bytes.now }
        ensures left { data_left result ≡ length bytes.now }

        // The runs are the longest rows of tokens of one kind, and no other segments are.
        ensures are { IsRuns bytes.now (runs bytes.now) }
        ensures only { (segments : List Segment)
            → IsRuns bytes.now segments → segments ≡ runs bytes.now }

        // They cover the data, none is empty, and each mode can write its range.
        ensures tile { Tile 0 (runs bytes.now) (length bytes.now) }
        ensures writable { AllByRecursion
            (λ s. IsTrue (can_write s.mode (slice_range bytes.now s.begin s.end)))
            (runs bytes.now) }
        ensures inside { HoldsAlong (YieldsFirst runs_left) result
            (AreInside (length bytes.now)) }
    {
        Parser {
            rest: bytes,
            begin: 0,
        }
    }

    /// Joins the remaining runs if that takes no more bits in this version.
    pub fn optimize(self, version: Version) -> Optimizer<Parser<'a>>
        requires valid { IsTrue (is_valid version) }
        requires at_most { data_left self ≤ range_limit }
        ensures can { CanGroup (YieldsFirst runs_left) (λ _. ⊤) (item_count runs_left) result }
        ensures finite { IsFinite (groups_left (item_count runs_left) result) }
        ensures groups { (groups : List Segment)
            → Drains (GroupsStep (YieldsFirst runs_left)) result groups
            → AreGroups version (runs_left self.entry) groups }
        ensures inside { HoldsAlong (GroupsStep (YieldsFirst runs_left)) result
            (AreInside (data_end self.entry)) }
    {
        Optimizer::new(self, version)
    }
}

impl<'a> Iterator for Parser<'a> {
    ghost use Rattle.std.specs.Iterator.{YieldsFirst, item_count};
    ghost use Rattle.qrcode_bits.specs.RunsLeft.{runs_left};

    type Item = Segment;

    ghost next_gives = { YieldsFirst runs_left };

    ghost remaining = { item_count runs_left };

    fn next(&mut self) -> Option<Segment> {
        let (kind, mut rest) = split_token(self.rest)?;
        while let Some((next, after)) = split_token(rest)
            && kind.goes_with(next)
        {
            rest = after;
        }
        let begin = self.begin;
        self.begin += self.rest.len() - rest.len();
        self.rest = rest;
        Some(Segment {
            mode: kind.mode(),
            begin,
            end: self.begin,
        })
    }
}
