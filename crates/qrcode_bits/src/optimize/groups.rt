//! Joins neighbouring segments if that takes no more bits. No constructor calls this: they use
//! `least_segments`.

ghost use Rattle.std.specs.Prelude.{◌≡◌, ℕ, List, [], ◌∷◌, IsTrue};
ghost use Rattle.std.specs.Iterator.{IsFinite, Drains, HoldsAlong};
ghost use Rattle.qrcode_types.specs.Versions.{is_valid};
ghost use Rattle.qrcode_bits.specs.declared.optimize.Segment.{Segment};
ghost use Rattle.qrcode_bits.specs.Segments.{AreInside};
ghost use Rattle.qrcode_bits.specs.Grouping.{is_joined};
ghost use Rattle.qrcode_bits.specs.Groups.{IsJoinable, AreGroups};
ghost use Rattle.qrcode_bits.specs.GroupSteps.{joint_if, groups_left, CanGroup, GroupsStep};

use super::Segment;
use qrcode_types::types::Version;

/// An iterator that joins each segment with those after it, as long as the joint segment takes no
/// more bits than both apart. Its mode is the smallest that can write both.
#[derive(Drop)]
pub struct Optimizer<I> {
    segments: I,
    last: Option<Segment>,
    version: Version,
}

impl<I: Iterator<Item = Segment>> Optimizer<I> {
    /// Creates an optimizer of `segments`, each of which begins where the one before ends.
    pub fn new(mut segments: I, version: Version) -> Optimizer<I>
        requires valid { IsTrue (is_valid version) }
        requires can { I.can_next segments }
        requires finite { IsFinite (I.remaining segments) }
        requires joinable { HoldsAlong I.next_gives segments IsJoinable }
        ensures can { CanGroup I.next_gives I.can_next I.remaining result }
        ensures finite { IsFinite (groups_left I.remaining result) }

        // The items are the groups of all segments.
        ensures groups { (groups : List Segment) → Drains (GroupsStep I.next_gives) result groups
            → (given : List Segment)
            × (Drains I.next_gives segments given × AreGroups version given groups) }
        ensures inside { (n : ℕ) → HoldsAlong I.next_gives segments (AreInside n)
            → HoldsAlong (GroupsStep I.next_gives) result (AreInside n) }
    {
        let last = segments.next();
        Optimizer {
            segments,
            last,
            version,
        }
    }
}

impl<I: Iterator<Item = Segment>> Iterator for Optimizer<I> {
    type Item = Segment;

    ghost can_next = { CanGroup I.next_gives I.can_next I.remaining };

    ghost next_gives = { GroupsStep I.next_gives };

    ghost remaining = { groups_left I.remaining };

    fn next(&mut self) -> Option<Segment> {
        let mut last = self.last?;
        while let Some(segment) = self.segments.next() {
            match try_join(last, segment, self.version) {
                Some(joint) => last = joint,
                None => {
                    self.last = Some(segment);
                    return Some(last);
                }
            }
        }
        self.last = None;
        Some(last)
    }
}

// Joins two segments if that takes no more bits than both apart.
fn try_join(first: Segment, second: Segment, version: Version) -> Option<Segment>
    requires valid { IsTrue (is_valid version) }
    requires joinable { IsJoinable (first ∷ second ∷ []) }
    ensures { result ≡ joint_if (is_joined version first second) first second }
{
    let joint = Segment {
        mode: first.mode.max(second.mode),
        begin: first.begin,
        end: second.end,
    };
    let apart = first.encoded_len(version) + second.encoded_len(version);
    if joint.encoded_len(version) <= apart {
        Some(joint)
    } else {
        None
    }
}
